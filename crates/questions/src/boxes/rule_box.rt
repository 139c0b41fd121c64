//! The box of a rule, with what tells most other boxes apart from it at once.
ghost use Rattle.std.specs.Prelude.{◌≡◌, ℕ, List, false, IfOk, IsTrue};
ghost use Rattle.fields.specs.numbers.Spans.{SpanSet};
ghost use Rattle.classify.specs.Classifier.{IsPoint, box_matches};
ghost use Rattle.questions.specs.boxes.Boxes.{Has, HasNumbers, IsAtHook};
ghost use Rattle.questions.specs.boxes.Cut.{AreMet, AreWholeBut};
ghost use Rattle.questions.specs.steps.Outlines.{IsOutlined};

use crate::boxes::area::Area;
use crate::boxes::ends::{Outline, outline_of};
use crate::boxes::lying::lies_on;
use crate::boxes::matched::has_on;
use crate::boxes::meeting::{are_apart, narrow_fields};
use fields::{FIELDS, Packet};
use rules::Boxed;
use std::alloc::{AllocError, Global};
use std::marker::Model;

// A rule's box. The box itself lies elsewhere in memory, so that boxes which are looked at one after another lie close together.
#[derive(Drop)]
pub(crate) struct RuleBox {
    outline: Outline,
    // The fields on which the box leaves numbers out.
    narrow: [bool; FIELDS],
    boxed: Box<Boxed>,
}

impl Model for RuleBox {
    ghost use Rattle.std.specs.Prelude.{List};
    ghost use Rattle.fields.specs.numbers.Spans.{SpanSet};
    ghost use Rattle.questions.specs.boxes.Cut.{AreWholeBut};
    ghost use Rattle.questions.specs.steps.Outlines.{IsOutlined};

    ghost Value = { List SpanSet };

    ghost view = { λ r. r.boxed.value };

    ghost invariant = { λ r. IsOutlined r.boxed.value r.outline × AreWholeBut r.narrow r.boxed.value };
}

impl RuleBox {
    // A box with its outline.
    pub(crate) fn of(alloc: Global, boxed: Boxed) -> Result<RuleBox, AllocError>
        ensures { IfOk result (λ made. made ≡ boxed) }
    {
        let outline = outline_of(boxed.spans());
        let narrow = narrow_fields(boxed.spans());
        Ok(RuleBox {
            outline,
            narrow,
            boxed: Box::new(alloc, boxed)?,
        })
    }

    // The box; it is lent.
    pub(crate) fn boxed(&self) -> &Boxed
        ensures { result.now ≡ self.now }
    {
        &self.boxed
    }

    // Whether it has a packet. It takes no memory, and looks only at the fields where it leaves numbers out.
    pub(crate) fn has(&self, packet: &Packet) -> bool
        requires { IsAtHook packet.now }
        ensures { result ≡ box_matches packet.now.values self.now }
    {
        has_on(self.boxed.spans(), packet, &self.narrow)
    }

    // Whether it has all packets of a box. It takes no memory, and looks only at the fields where it leaves numbers out.
    pub(crate) fn has_all(&self, area: &Area) -> bool
        ensures { IsTrue result → (numbers : List ℕ) → IsPoint numbers → Has area.now numbers → Has self.now numbers }
    {
        lies_on(area.sets(), self.boxed.spans(), &self.narrow)
    }

    // Whether it has no packet in common with a box that has this outline, as far as the outlines tell.
    pub(crate) fn is_outside(&self, outline: &Outline) -> bool
        ensures { IsTrue result → (area : List SpanSet) → IsOutlined area outline.now → (numbers : List ℕ) → IsPoint numbers → Has area numbers → Has self.now numbers → ⊥ }
    {
        self.outline.is_apart(outline)
    }

    // Whether it has no packet in common with a box, given the box's outline. It takes no memory.
    pub(crate) fn is_apart(&self, area: &Area, outline: &Outline) -> bool
        requires { IsOutlined area.now outline.now }
        ensures none { IsTrue result → (numbers : List ℕ) → IsPoint numbers → Has area.now numbers → Has self.now numbers → ⊥ }
        ensures some { result ≡ false → HasNumbers area.now → AreMet area.now self.now }
    {
        self.is_outside(outline) || are_apart(area.sets(), self.boxed.spans(), &self.narrow)
    }
}
