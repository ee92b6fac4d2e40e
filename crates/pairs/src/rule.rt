// The rules that join the bits of two strips.
ghost use Rattle.pairs.specs.Rules.{rule_of};
ghost use Rattle.pairs.specs.Working.{JoinedWord};

// Which strokes a count or a find takes: those that the rule marks, giving 1.
#[derive(Clone, Copy, Debug, PartialEq, Eq, Hash)]
pub enum Rule {
    // those that both strips mark
    Both,
    // those that either marks
    Either,
    // those that only the first marks
    OnlyFirst,
    // those that they judge differently
    Differ,
}

// The word whose bits are the rule of the bits of two words.
pub fn join(rule: Rule, x: u64, y: u64) -> u64
    ensures { JoinedWord (rule_of rule) x y result }
{
    match rule {
        Rule::Both => x & y,
        Rule::Either => x | y,
        Rule::OnlyFirst => x & !y,
        Rule::Differ => x ^ y,
    }
}
