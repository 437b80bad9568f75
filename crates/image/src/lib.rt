// The site image: its header and records, and the reader that puts questions 1 to 10 to it.
//
// `open` answers the header of an image that is accepted, or the number and place of the first no. `open_rows` also leaves behind what reading the edges
// makes: a row for each handset, with itself and those that it is adjacent to, and the size of each row.
// Callers read the records themselves, and cite proofs/Answers (`open_same`), proofs/Acceptance (what an accepted image keeps to) and proofs/Records
// (a record is the slice of its table that it is read from).
#![tactic(auto)]

ghost use Rattle.std.specs.Prelude.{◌≡◌, ℕ, ◌&&◌, ◌+◌, ◌*◌, ◌≤◌, ◌<◌, true, false, ltb, eqb, length, take, drop, Ok, MatchResult};
ghost use Rattle.sets.specs.Bits.{cell, with_bit};
ghost use Rattle.sets.specs.Rows.{Table, Counted};
ghost use Rattle.fields.specs.Fields.{handset_bytes, edge_bytes};
ghost use Rattle.limits.specs.Limits.{out_of_limits};
ghost use Rattle.image.specs.Image.{header_of, handset_record, end_a, end_b};
ghost use Rattle.image.specs.Questions.{tables_fit, bad_end, is_loop, ask_edges, ask_records, ask_header, ask_image, open_of};
ghost use Rattle.image.specs.Answers.{open_answer, number_of, refusal};
ghost use Rattle.image.specs.Rows.{Cleared, related, Held, Reading};
ghost use Rattle.image.specs.ForProofs.{NoneBad, FirstBad, linked, Added};

// The header's numbers as they stand: `limit` is G, a blank `mu` is still 0 (`fields::core_size`), and `width` is that of a handset's record.
#[derive(Clone, Copy)]
pub struct Header {
    pub n: u16,
    pub m: u16,
    pub handsets: u32,
    pub edges: u32,
    pub len: u32,
    pub limit: u64,
    pub p: u16,
    pub q: u16,
    pub mu: u16,
    pub width: u16,
}

// The questions that a call may answer with a no, each by what it asks about; its number is the one that C gets.
#[derive(Clone, Copy, PartialEq, Eq)]
pub enum Question {
    Header = 1,
    Length = 2,
    Counts = 3,
    Width = 4,
    Thresholds = 5,
    Tables = 6,
    Coordinates = 7,
    Ends = 8,
    Loops = 9,
    Repeats = 10,
    StartTable = 11,
    MemberTable = 12,
    Handset = 13,
    Group = 14,
    Input = 15,
    Text = 16,
    Point = 17,
    Date = 18,
    Minutes = 19,
    Buffer = 20,
}

// The number of the question that got a no, and a place. A number and not the question: where nothing is refused it is 0 (`refusals::refusal_of`).
#[derive(Clone, Copy)]
pub struct Refusal {
    pub number: u32,
    pub place: usize,
}

impl Question {
    // The refusal of a no at a place.
    pub fn refused_at(self, place: usize) -> Refusal
        ensures { result ≡ record { number = number_of self; place = place } }
    {
        Refusal {
            number: self as u32,
            place,
        }
    }

    // The refusal of a no that names no place.
    pub fn refused(self) -> Refusal
        ensures { result ≡ refusal (number_of self) }
    {
        self.refused_at(0)
    }
}

// The header's numbers as they stand; 0 for one that is not there.
fn read_header(s: &[u8]) -> Header
    ensures { result ≡ header_of s.now }
{
    Header {
        n: little_endian::read(s, 0),
        m: little_endian::read(s, 2),
        handsets: little_endian::read(s, 4),
        edges: little_endian::read(s, 8),
        len: little_endian::read(s, 12),
        limit: little_endian::read(s, 16),
        p: little_endian::read(s, 24),
        q: little_endian::read(s, 26),
        mu: little_endian::read(s, 28),
        width: little_endian::read(s, 30),
    }
}

// Question 6. The ends are computed in 64 bits, where no offset wraps.
fn tables_fit(h: Header) -> bool
    ensures { result ≡ tables_fit h }
{
    let front = fields::HEADER_BYTES as u64;
    let a = u64::from(h.handsets);
    let b = u64::from(h.edges);
    let len = u64::from(h.len);
    let a_end = a + (fields::HANDSET_BYTES as u64) * u64::from(h.n);
    let b_end = b + (fields::EDGE_BYTES as u64) * u64::from(h.m);
    front <= a && front <= b && a_end <= len && b_end <= len && (a_end <= b || b_end <= a)
}

// A question: a yes goes on, a no is the refusal with its number and place.
fn ask(yes: bool, question: Question, place: usize) -> Result<(), Refusal>
    ensures { MatchResult result (λ u. yes ≡ true) (λ r. (yes ≡ false) × (r ≡ record { number = number_of question; place = place })) }
{
    if yes {
        Ok(())
    } else {
        Err(question.refused_at(place))
    }
}

// A question to each of `count` records: its no is at the first bad one.
fn ask_each<F: Fn(usize) -> bool>(
    count: usize,
    question: Question,
    is_bad: F,
) -> Result<(), Refusal>
    requires { (k : ℕ) → k < count → F.pre is_bad k }
    ensures { MatchResult result (λ u. NoneBad (F.post is_bad) count) (λ r. FirstBad (F.post is_bad) count (number_of question) r) }
{
    for k in 0..count {
        ask(!is_bad(k), question, k)?;
    }
    Ok(())
}

// Questions 3 to 6, of the header alone.
fn ask_header(h: Header) -> Result<Header, Refusal>
    ensures { result ≡ ask_header h (Ok h) }
{
    ask(
        limits::counts_fit(u64::from(h.n), u64::from(h.m)),
        Question::Counts,
        0,
    )?;
    ask(limits::width_fits(h.width), Question::Width, 0)?;
    let mu = u64::from(h.mu);
    ask(
        limits::thresholds_fit(h.limit, u64::from(h.p), u64::from(h.q), mu),
        Question::Thresholds,
        0,
    )?;
    ask(tables_fit(h), Question::Tables, 0)?;
    Ok(h)
}

// Whether question 7 fails for handset v, whose record is there.
fn is_out_of_limits(records: &[u8], v: usize) -> bool
    requires { handset_bytes * (v + 1) ≤ length records.now }
    ensures { result ≡ out_of_limits (handset_record records.now v) }
{
    let at = fields::HANDSET_BYTES * v;
    let past = at + fields::HANDSET_BYTES;
    limits::out_of_limits(&records[at..past])
}

// The ends of edge k, whose record is there.
fn ends_at(records: &[u8], k: usize) -> fields::Ends
    requires { edge_bytes * (k + 1) ≤ length records.now }
    ensures { result ≡ record { a = end_a records.now k; b = end_b records.now k } }
{
    let at = fields::EDGE_BYTES * k;
    let past = at + fields::EDGE_BYTES;
    fields::read_ends(&records[at..past])
}

// Whether question 8 fails for edge k, whose record is there: an end is no handset.
fn has_bad_end(records: &[u8], n: usize, k: usize) -> bool
    requires { edge_bytes * (k + 1) ≤ length records.now }
    ensures { result ≡ bad_end records.now n k }
{
    let e = ends_at(records, k);
    e.a >= n || e.b >= n
}

// Whether question 9 fails for edge k, whose record is there: its ends are the same.
fn is_loop(records: &[u8], k: usize) -> bool
    requires { edge_bytes * (k + 1) ≤ length records.now }
    ensures { result ≡ is_loop records.now k }
{
    let e = ends_at(records, k);
    e.a == e.b
}

// Adds v to row u, which does not have it.
fn add(rows: &mut sets::Table, sizes: &mut [u32; 512], u: usize, v: usize)
    requires { (u < 512) × (v < 512) × (Counted rows.old sizes.old) × (cell rows.old u v ≡ 0) }
    ensures added { rows.new ≡ with_bit rows.old (u * 512 + v) }
    ensures counted { Counted rows.new sizes.new }
{
    sizes[u] += 1;
    sets::mark(rows, u * 512 + v);
}

// Adds each of the first n handsets to its own row of a cleared table.
fn add_selves(rows: &mut sets::Table, sizes: &mut [u32; 512], n: usize)
    requires { (n ≤ 512) × (Cleared rows.old sizes.old) }
    ensures added { Table rows.new (λ u v. ltb u n && eqb u v) }
    ensures counted { Counted rows.new sizes.new }
{
    // n is at most 512. Told so, the compiler drops the test of the place in `sets::mark`; with it, opening 512 handsets without edges takes 7 % longer (measured).
    for u in 0..n.min(512) {
        add(rows, sizes, u, u);
    }
}

// Adds the ends of each edge to each other's rows, up to the first edge at fault for question 8, 9 or 10, whose number it gives. A row that has an end
// already says that the edge is a loop or a repeat.
fn add_edges(
    records: &[u8],
    m: usize,
    n: usize,
    rows: &mut sets::Table,
    sizes: &mut [u32; 512],
) -> Option<usize>
    requires { (n ≤ 512) × (edge_bytes * m ≤ length records.now) × (Table rows.old (λ u v. ltb u n && eqb u v)) × (Counted rows.old sizes.old) }
    ensures { Added records.now n m result rows.new sizes.new }
{
    for k in 0..m {
        let e = ends_at(records, k);
        if e.a >= n || e.b >= n || sets::has(rows, e.a * 512 + e.b) {
            return Some(k);
        }
        add(rows, sizes, e.a, e.b);
        add(rows, sizes, e.b, e.a);
    }
    None
}

// Questions 8 to 10, each to every edge before the next. Where no edge is at fault, one pass says so; where an edge is, but none for 8 or 9, it is the
// first repeat. After a yes the cleared table that is lent has the rows of all edges.
fn ask_edges(
    records: &[u8],
    h: Header,
    rows: &mut sets::Table,
    sizes: &mut [u32; 512],
) -> Result<Header, Refusal>
    requires { (h.n ≤ 512) × (edge_bytes * h.m ≤ length records.now) × (Cleared rows.old sizes.old) }
    ensures answer { result ≡ ask_edges records.now h }
    ensures held { Held (linked h.n records.now h.m) result rows.new sizes.new }
{
    let n = usize::from(h.n);
    let m = usize::from(h.m);
    add_selves(rows, sizes, n);
    let Some(fault) = add_edges(records, m, n, rows, sizes) else {
        return Ok(h);
    };
    ask_each(m, Question::Ends, |k| has_bad_end(records, n, k))?;
    ask_each(m, Question::Loops, |k| is_loop(records, k))?;
    Err(Question::Repeats.refused_at(fault))
}

// Questions 7 to 10, of the two tables of records.
fn ask_records(
    handsets: &[u8],
    edges: &[u8],
    h: Header,
    rows: &mut sets::Table,
    sizes: &mut [u32; 512],
) -> Result<Header, Refusal>
    requires { (h.n ≤ 512) × (handset_bytes * h.n ≤ length handsets.now) × (edge_bytes * h.m ≤ length edges.now) × (Cleared rows.old sizes.old) }
    ensures answer { result ≡ ask_records handsets.now edges.now h }
    ensures held { Held (linked h.n edges.now h.m) result rows.new sizes.new }
{
    ask_each(
        usize::from(h.n),
        Question::Coordinates,
        |v| is_out_of_limits(handsets, v),
    )?;
    ask_edges(edges, h, rows, sizes)
}

// Questions 7 to 10, each table read from the slice of the image that begins at its offset.
fn ask_tables(
    image: &[u8],
    h: Header,
    rows: &mut sets::Table,
    sizes: &mut [u32; 512],
) -> Result<Header, Refusal>
    requires { (h.n ≤ 512) × (h.handsets + handset_bytes * h.n ≤ length image.now) × (h.edges + edge_bytes * h.m ≤ length image.now) × (Cleared rows.old sizes.old) }
    ensures answer { result ≡ ask_records (take (handset_bytes * h.n) (drop h.handsets image.now)) (take (edge_bytes * h.m) (drop h.edges image.now)) h }
    ensures held { Held (linked h.n (take (edge_bytes * h.m) (drop h.edges image.now)) h.m) result rows.new sizes.new }
{
    let a = h.handsets as usize;
    let a_end = a + fields::HANDSET_BYTES * usize::from(h.n);
    let b = h.edges as usize;
    let b_end = b + fields::EDGE_BYTES * usize::from(h.m);
    ask_records(&image[a..a_end], &image[b..b_end], h, rows, sizes)
}

// Puts questions 1 to 6 to an image, in order, and stops at the first no: an image that gets a yes to all has both tables in it.
fn open_header(image: &[u8]) -> Result<Header, Refusal>
    ensures { result ≡ ask_image image.now (Ok (header_of image.now)) }
{
    ask(image.len() >= fields::HEADER_BYTES, Question::Header, 0)?;
    let h = read_header(image);
    ask(h.len as usize == image.len(), Question::Length, 0)?;
    ask_header(h)
}

// Puts questions 1 to 10 to an image, in order, and stops at the first no. After a yes the cleared table that is lent has the rows of all edges.
fn read_image(
    image: &[u8],
    rows: &mut sets::Table,
    sizes: &mut [u32; 512],
) -> Result<Header, Refusal>
    requires { Cleared rows.old sizes.old }
    ensures answer { result ≡ open_of image.now }
    ensures held { Held (related image.now) result rows.new sizes.new }
{
    let h = open_header(image)?;
    ask_tables(image, h, rows, sizes)
}

// Puts questions 1 to 10 to an image, and leaves the rows of all edges and their sizes in the tables that are lent, or 0 everywhere after a no. Their
// earlier contents are overwritten.
pub fn open_rows(
    image: &[u8],
    rows: &mut [u64; sets::TABLE_WORDS],
    sizes: &mut [u32; 512],
) -> Result<Header, Refusal>
    ensures { Reading image.now result rows.new sizes.new }
{
    *rows = [0u64; sets::TABLE_WORDS];
    *sizes = [0u32; 512];
    let answer = read_image(image, rows, sizes);
    if answer.is_err() {
        *rows = [0u64; sets::TABLE_WORDS];
        *sizes = [0u32; 512];
    }
    answer
}

// The same, without the rows.
pub fn open(image: &[u8]) -> Result<Header, Refusal>
    ensures { open_answer result ≡ open_answer (open_of image.now) }
{
    let mut rows = [0u64; sets::TABLE_WORDS];
    let mut sizes = [0u32; 512];
    read_image(image, &mut rows, &mut sizes)
}
