//! Laws of the classifier of rules: the contract of each is the law, and it does nothing.

ghost use Rattle.classify.specs.Laws.{EachRuleHasABox, BoxesHaveTheRulesClassifier, BoxesHaveTheRulesMatches, RulesHaveOneClassifier, RulesHaveTheComputedLine, SameNumbersSameClassifier, RenamedOneSameClassifier, RenamedManySameClassifier};

/// The law that every rule has a box; that the classifier of rules' boxes is the classifier of the rules; and that
/// the next box that allows a point is that of the next rule that allows each of its numbers.
pub fn boxes_stand_for_their_rules()
    ensures each { EachRuleHasABox }
    ensures classifier { BoxesHaveTheRulesClassifier }
    ensures matches { BoxesHaveTheRulesMatches }
{}

/// The law that rules have one classifier: two classifiers of the same rules have as many boxes, and the same line on
/// each field.
#[tactic(auto, using(crate::proofs::laws::classifier::RuleLaws::one_classifier))]
pub fn rules_have_one_classifier()
    ensures { RulesHaveOneClassifier }
{}

/// The law that the line of rules on a field is the one that `lines_of` computes, and no other.
pub fn rules_have_the_computed_line()
    ensures { RulesHaveTheComputedLine }
{}

/// The law that the classifier of rules knows only what they allow: rules that allow the same numbers have the same
/// classifier, and another chain's name in a target leaves it as it is.
pub fn targets_leave_the_classifier()
    ensures same { SameNumbersSameClassifier }
    ensures renamed_one { RenamedOneSameClassifier }
    ensures renamed_many { RenamedManySameClassifier }
{}
