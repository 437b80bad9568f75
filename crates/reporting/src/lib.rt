// The report: the text of a site's plan, written into a lent buffer, and the text that the report program prints.
//
// An image is opened once, and its groups stay rows of bits; `lines` writes the text. The definitions are in specs/Report. No From exists from u32 to
// usize, so these are casts.
#![tactic(auto)]

ghost use Rattle.std.specs.Prelude.{◌≤◌, ◌≡◌, length};
ghost use Rattle.text.specs.Text.{Wrote};
ghost use Rattle.lines.specs.Lines.{table_text};
ghost use Rattle.lines.specs.ForProofs.{most_bytes};
ghost use Rattle.reporting.specs.Report.{report_text, ReportCall, program_text};
ghost use Rattle.reporting.specs.ForProofs.{RowsCounted, RowsHeld, Filled};

use image::{Header, Question, Refusal};
use lines::{Head, Numbers};
use rows::{Counts, Groups};

// An upper bound on the length of a report with these counts: 160 bytes for what stands before a group's members, four for a member, and 4,608 for the other lines.
fn most_bytes(counts: Counts) -> usize
    requires { (counts.groups ≤ 512) × (counts.memberships ≤ 262144) }
    ensures { result ≡ most_bytes counts }
{
    4608 + 160 * counts.groups + 4 * counts.memberships
}

// Writes the whole report where it fits; where it does not, the refusal 16, and nothing is written. The text is measured first, in a
// buffer of one byte, only where the buffer is shorter than that bound.
fn write_text<'a>(
    text: &mut [u8],
    numbers: Numbers,
    rows: &'a [u64; sets::TABLE_WORDS],
    tallies: &'a [u32; 1024],
    reaches: &'a [u64; 512],
    cores: &'a [u64; 8],
    outliers: &'a [u64; 8],
) -> Result<usize, Refusal>
    requires { RowsCounted rows.now numbers.head.counts }
    ensures { Filled (table_text numbers rows.now tallies.now reaches.now cores.now outliers.now) text.old result text.new }
{
    let mut need = most_bytes(numbers.head.counts);
    if text.len() < need {
        let mut none = [0u8; 1];
        need = lines::put_report(&mut none, numbers, rows, tallies, reaches, cores, outliers);
    }
    if need <= text.len() {
        let length = lines::put_report(text, numbers, rows, tallies, reaches, cores, outliers);
        return Ok(length);
    }
    Err(Question::Text.refused())
}

// Writes the report of an accepted image from its header, its groups, and its cores.
fn report_groups<'a>(
    text: &mut [u8],
    image: &'a [u8],
    h: Header,
    groups: Groups<'a>,
    cores: &'a [u64; 8],
) -> Result<usize, Refusal>
    requires { RowsHeld image.now h groups.rows.now groups.count cores.now }
    ensures { Filled (report_text image.now) text.old result text.new }
{
    let n = usize::from(h.n);
    let m = usize::from(h.m);
    let from = h.handsets as usize;
    let to = from + fields::HANDSET_BYTES * n;
    let a = h.edges as usize;
    let b = a + fields::EDGE_BYTES * m;
    let mut tallies = [0u32; 1024];
    let mut reaches = [0u64; 512];
    tallies::count_groups(
        &image[from..to],
        &image[a..b],
        h.limit,
        groups,
        &mut tallies,
        &mut reaches,
    );
    let mut outliers = [0u64; 8];
    let totals = totals::count_roles(groups, cores, n, &mut outliers);
    let head = Head {
        handsets: h.n,
        ties: h.m,
        counts: groups.counts(),
    };
    let numbers = Numbers { head, totals };
    write_text(
        text,
        numbers,
        groups.rows,
        &tallies,
        &reaches,
        cores,
        &outliers,
    )
}

// Writes the report of an image into the buffer, and answers the text's length. A refused image, or a buffer that does not hold the whole text
// (16), is refused with nothing written; past the text the buffer holds what it held.
pub fn report(image: &[u8], text: &mut [u8]) -> Result<usize, Refusal>
    ensures { ReportCall image.now text.old result text.new }
{
    let mut rows = [0u64; sets::TABLE_WORDS];
    let mut cores = [0u64; 8];
    let found = graph::find_rows(image, &mut rows, &mut cores);
    let opened = found.opened;
    let Ok(h) = opened else {
        return Err(refusals::refusal_of(opened));
    };
    let groups = Groups {
        rows: &rows,
        count: found.groups,
    };
    report_groups(text, image, h, groups, &cores)
}

// What the report program prints for an input, written at the front of the buffer; the answer is its length. An input of more than 65,536 bytes
// is refused with 15.
pub fn program_text(input: &[u8], out: &mut [u8]) -> usize
    ensures { Wrote out.old 0 (program_text input.now (length out.old)) out.new result }
{
    if 65536 < input.len() {
        let refusal = Question::Input.refused();
        return lines::put_refusal(out, refusal);
    }
    let reported = report(input, out);
    match reported {
        Ok(length) => length,
        Err(refusal) => lines::put_refusal(out, refusal),
    }
}
