//! The laws of the machine. Their functions do nothing when they run: what they ensure is the law.
ghost use Rattle.act_rows.specs.Law.{HintKeeps, PinKeeps, DecideKeeps, ReadKeeps, LeaveKeeps, LookKeeps, StoreKeeps, PublishKeeps, LendKeeps, NoteKeeps, GiveBackKeeps, LearnKeeps, CheckKeeps, HeedKeeps, Opens};
ghost use Rattle.act_rows.specs.Rising.{LookRaises, LendRaises, GiveBackRaises, StoreRaises, PublishRaises};

use crate::fact::Fact;

/// Each kind of step keeps the rule of the table, whatever the table is when it comes, and the table
/// as it is made meets the rule. So the rule holds between any two steps, in every order of steps.
pub fn steps_keep_the_rule<F: Fact>()
    ensures hint { HintKeeps F.fact }
    ensures pin { PinKeeps F.fact }
    ensures decide { DecideKeeps F.fact }
    ensures read { ReadKeeps F.fact }
    ensures leave { LeaveKeeps F.fact }
    ensures look { LookKeeps F.fact }
    ensures store { StoreKeeps F.fact }
    ensures publish { PublishKeeps F.fact }
    ensures lend { LendKeeps F.fact }
    ensures note { NoteKeeps F.fact }
    ensures give_back { GiveBackKeeps F.fact }
    ensures learn { LearnKeeps F.fact }
    ensures check { CheckKeeps F.fact }
    ensures heed { HeedKeeps F.fact }
    ensures opens { Opens F.fact }
{}

/// The bound of a reader never falls while it is lent: each call of the writer leaves it or raises
/// it, and to take one reader back leaves the bounds of the others.
pub fn bounds_never_fall<F: Fact>()
    ensures look { LookRaises F.fact }
    ensures lend { LendRaises }
    ensures give_back { GiveBackRaises }
    ensures store { StoreRaises }
    ensures publish { PublishRaises }
{}
