// The lines of a report, and the line that stands for a refusal, written into a lent buffer: what a report looks like, and nothing of how its numbers are found.
//
// A text is written from its first byte on; past the end of the buffer nothing is written, and the answer is the text's length all the same. The definitions are
// in specs/Lines. Callers cite proofs/Lengths for how long a report can be. No From exists between usize and u32 or u64, so these are casts.
#![tactic(auto)]

ghost use Rattle.std.specs.Prelude.{◌≤◌, ◌<◌, ◌≡◌, ◌++◌};
ghost use Rattle.scores.specs.Scored.{scores_for};
ghost use Rattle.text.specs.Text.{Wrote, Writes, decimal, elements_of};
ghost use Rattle.lines.specs.Lines.{newline, head_line, score_text, scores_text, reach_text, group_line, list_line, totals_line, group_tally, group_reach, table_text, refused_text};
ghost use Rattle.lines.specs.ForProofs.{fields_line};

use image::Refusal;
use rows::{Counts, Groups};
use scores::{Ratio, Tally};
use text::Text;
use totals::Totals;

// The numbers of a report's line one: the site's n and m, and the plan's two counts.
#[derive(Clone, Copy)]
pub struct Head {
    pub handsets: u16,
    pub ties: u16,
    pub counts: Counts,
}

// The numbers of a report's first line and of its last.
#[derive(Clone, Copy)]
pub struct Numbers {
    pub head: Head,
    pub totals: Totals,
}

// Ends a line.
fn end_line(text: &mut Text<'_>)
    ensures { Writes text.old newline text.new }
{
    text.put_all(b"\n");
}

// Writes a label and a number.
fn put_labelled(text: &mut Text<'_>, label: &[u8], n: u64)
    ensures { Writes text.old (label.now ++ decimal n) text.new }
{
    text.put_all(label);
    text.put_decimal(n);
}

// Writes a line of labels, each with its number.
fn put_fields(text: &mut Text<'_>, fields: &[(&[u8], u64)])
    ensures { Writes text.old (fields_line fields.now) text.new }
{
    for &(label, n) in fields {
        put_labelled(text, label, n);
    }
    text.put(b'\n');
}

// Writes line one.
fn put_head(text: &mut Text<'_>, head: Head)
    ensures { Writes text.old (head_line head) text.new }
{
    put_fields(
        text,
        &[
            (b"handsets ", u64::from(head.handsets)),
            (b" ties ", u64::from(head.ties)),
            (b" groups ", head.counts.groups as u64),
            (b" memberships ", head.counts.memberships as u64),
        ],
    );
}

// Writes the last line.
fn put_totals(text: &mut Text<'_>, totals: Totals)
    ensures { Writes text.old (totals_line totals) text.new }
{
    put_fields(
        text,
        &[
            (b"cores ", totals.cores as u64),
            (b" borders ", totals.borders as u64),
            (b" outliers ", totals.outliers as u64),
            (b" multiple ", totals.multiple as u64),
        ],
    );
}

// Writes a score: two numbers with a slash between, or a hyphen where there is none.
fn put_score(text: &mut Text<'_>, score: Option<Ratio>)
    ensures { Writes text.old (score_text score) text.new }
{
    match score {
        Some(ratio) => {
            text.put_decimal(ratio.numerator);
            put_labelled(text, b"/", ratio.denominator);
        }
        None => text.put(b'-'),
    }
}

// Writes what stands before the members in a group's line: its number and its two scores.
fn put_scores(text: &mut Text<'_>, k: usize, tally: Tally)
    ensures { Writes text.old (scores_text k (scores_for tally)) text.new }
{
    let scores = scores::scores_of(tally);
    put_labelled(text, b"group ", k as u64);
    text.put_all(b" density ");
    put_score(text, scores.density);
    text.put_all(b" conductance ");
    put_score(text, scores.conductance);
}

// Writes a reach: its squared distance, or a hyphen where there is none.
fn put_reach(text: &mut Text<'_>, reach: Option<u64>)
    ensures { Writes text.old (reach_text reach) text.new }
{
    match reach {
        Some(squared) => text.put_decimal(squared),
        None => text.put_all(b"-"),
    }
}

// Writes a line of a word and the members of a set of bits.
fn put_set(text: &mut Text<'_>, word: &[u8], set: &[u64])
    ensures { Writes text.old (list_line word.now (elements_of set.now)) text.new }
{
    text.put_all(word);
    text.put_members(set);
    end_line(text);
}

// Writes the line of group k, whose members are a set of bits.
fn put_group(text: &mut Text<'_>, k: usize, tally: Tally, reach: Option<u64>, row: &[u64])
    ensures { Writes text.old (group_line k (scores_for tally) reach (elements_of row.now)) text.new }
{
    put_scores(text, k, tally);
    text.put_all(b" reach ");
    put_reach(text, reach);
    put_set(text, b":", row);
}

// The tally of group k of so many members, from the table of tallies.
#[tactic(auto, unfolding(crate::specs::Lines::group_tally))]
fn group_tally(tallies: &[u32; 1024], k: usize, size: usize) -> Tally
    requires in_table { k < 512 }
    requires few { size ≤ 512 }
    ensures { result ≡ group_tally tallies.now k size }
{
    Tally {
        pairs: scores::pairs_of(size),
        joined: tallies[k],
        leaving: tallies[512 + k],
    }
}

// The reach of group k, from the table of reaches.
#[tactic(auto, unfolding(crate::specs::Lines::group_reach))]
fn group_reach(reaches: &[u64; 512], k: usize) -> Option<u64>
    requires { k < 512 }
    ensures { result ≡ group_reach reaches.now k }
{
    reaches[k].checked_sub(1)
}

// Writes the whole report from the numbers of its first and last line, the groups as rows, their tallies and reaches, and the sets of cores and of outliers.
// It lists no more than 512 groups; a site has no more.
pub fn put_report<'a>(
    buffer: &mut [u8],
    numbers: Numbers,
    rows: &'a [u64; sets::TABLE_WORDS],
    tallies: &'a [u32; 1024],
    reaches: &'a [u64; 512],
    cores: &'a [u64; 8],
    outliers: &'a [u64; 8],
) -> usize
    ensures { Wrote buffer.old 0 (table_text numbers rows.now tallies.now reaches.now cores.now outliers.now) buffer.new result }
{
    let mut text = Text::new(buffer);
    put_head(&mut text, numbers.head);
    let groups = Groups {
        rows,
        count: numbers.head.counts.groups,
    };
    for k in 0..groups.count.min(512) {
        let tally = group_tally(tallies, k, groups.size(k) as usize);
        let reach = group_reach(reaches, k);
        put_group(&mut text, k, tally, reach, groups.row(k));
    }
    put_set(&mut text, b"cores:", cores);
    put_set(&mut text, b"outliers:", outliers);
    put_totals(&mut text, numbers.totals);
    text.position
}

// Writes a refusal as the program prints it: a word, the number, the place.
pub fn put_refusal(buffer: &mut [u8], refusal: Refusal) -> usize
    ensures { Wrote buffer.old 0 (refused_text refusal) buffer.new result }
{
    let mut text = Text::new(buffer);
    put_labelled(&mut text, b"refused ", u64::from(refusal.number));
    put_labelled(&mut text, b" ", refusal.place as u64);
    end_line(&mut text);
    text.position
}
