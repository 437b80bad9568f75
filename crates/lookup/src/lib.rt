// Members of a group: a part of the caller's member table, and the companion that says whether there is one.
//
// The definitions are in specs/Lookup. Callers cite proofs/Agreement: the part and the companion's answer agree, and question 14 is answered
// yes exactly where the companion finds the group; `looked_same` of proofs/Answers makes an equation of the companion's answer.
#![tactic(auto)]

ghost use Rattle.std.specs.Prelude.{◌≡◌, ◌≤◌, MatchOption, length, ⊤};
ghost use Rattle.lookup.specs.Lookup.{members_of, looked_of};
ghost use Rattle.lookup.specs.Answers.{look_answer};
ghost use Rattle.lookup.specs.ForProofs.{span_of};

use image::{Question, Refusal};
use std::ops::Range;

// The two tables of a plan: the members of group k stand in the member table from start k up to start k + 1.
#[derive(Clone, Copy)]
pub struct Plan<'a> {
    pub starts: &'a [u32],
    pub members: &'a [u16],
}

impl<'a> Plan<'a> {
    // Question 14: where group k stands in the member table. The largest k is compared before anything is added to it.
    fn find_span(self, k: usize) -> Option<Range<usize>>
        ensures found { result ≡ span_of self.entry.starts.now (length self.entry.members.now) k }
        ensures inside { MatchOption result ⊤ (λ span. (span.start ≤ span.end) × (span.end ≤ length self.entry.members.now)) }
    {
        let first = *self.starts.get(k)? as usize;
        let past = *self.starts.get(k.checked_add(1)?)? as usize;
        if first <= past && past <= self.members.len() {
            Some(first..past)
        } else {
            None
        }
    }

    // The members of group k: that part of the member table itself, not a copy. Empty where 14 applies.
    pub fn members(self, k: usize) -> &'a [u16]
        ensures { result.now ≡ members_of self.entry.starts.now self.entry.members.now k }
    {
        match self.find_span(k) {
            Some(span) => &self.members[span.start..span.end],
            None => &self.members[0..0],
        }
    }

    // The companion of `members`: refusal 14 with place 0, or the count of the members.
    pub fn find_group(self, k: usize) -> Result<usize, Refusal>
        ensures { look_answer result ≡ look_answer (looked_of self.entry.starts.now self.entry.members.now k) }
    {
        match self.find_span(k) {
            Some(span) => Ok(span.end - span.start),
            None => Err(Question::Group.refused()),
        }
    }
}
