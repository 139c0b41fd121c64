//! A chain renamed and moved in the index, and the rules that name it. Where its count is 0, no rule is looked at.
ghost use Rattle.std.specs.Prelude.{◌≡◌, ◌<◌, ◌≤◌, length};
ghost use Rattle.table.specs.edits.Edits.{Rename, edited};
ghost use Rattle.table.specs.steps.Kept.{AreKept, IsIn, IsIndexFor, name_in, table_of, AreRetargeted, moved_key};

use crate::parts::Parts;
use fields::Name;
use rules::renamed_reads_back;

impl Parts {
    // Puts the name into all rules that lead to the chain under a key. Where the chain counts none, no rule is looked at.
    fn retarget_all(&mut self, key: usize, name: &Name)
        requires kept { AreKept self.old }
        requires key { IsIn self.old.order.items key }
        ensures policies { self.new.policies ≡ self.old.policies }
        ensures order { self.new.order.items ≡ self.old.order.items }
        ensures rules { AreRetargeted self.old.chains.slots self.new.chains.slots self.old.order.items key name.now (length self.old.order.items) }
    {
        if self.chains[key].references() == 0 {
            return;
        }
        let chains = &mut self.chains;
        for place in 0..self.order.len() {
            let at = self.order[place];
            chains[at].retarget(key, name);
        }
    }
}

// Moves the key at a place of the index to where its chain's new name belongs, by the places before the move. It takes
// no memory.
fn move_key(order: &mut Vec<usize>, place: usize, to: usize)
    requires place { place < length order.old.items }
    requires to { to ≤ length order.old.items }
    ensures { order.new.items ≡ moved_key order.old.items place to }
{
    let key = order[place];
    order.remove(place);
    let to = if place < to { to - 1 } else { to };
    match order.insert(to, key) {
        Ok(()) => return,
        Err(_) => unreachable!(),
    }
}

impl Parts {
    // Renames the user chain at a place of the index, and moves it to the place of its new name. It takes no memory.
    pub(crate) fn rename(&mut self, place: usize, to: usize, name: Name)
        requires kept { AreKept self.old }
        requires user { 3 ≤ place }
        requires place { place < length self.old.order.items }
        requires to { IsIndexFor name self.old.chains.slots self.old.order.items to }
        ensures kept { AreKept self.new }
        ensures moved { self.new.order.items ≡ moved_key self.old.order.items place to }
        ensures table { table_of self.new ≡ edited (Rename (name_in self.old place) name)
            (table_of self.old) }
    {
        let _form = name.bytes();
        let key = self.order[place];
        self.retarget_all(key, &name);
        self.chains[key].set_name(name);
        move_key(&mut self.order, place, to);
        renamed_reads_back();
    }
}
