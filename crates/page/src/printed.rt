// Replies printed as lines of a page, and read back from them.
ghost use Rattle.std.specs.Prelude.{◌≡◌, ◌^◌, ◌<◌, ◌≤◌, true, ◌++◌, length, drop, Ok, slice_index_or};
ghost use Rattle.page.specs.Columns.{across, all_fit, all_narrow, column, digit_of, leading, width_of};
ghost use Rattle.page.specs.Columns.{numeral as numeral_in};
ghost use Rattle.page.specs.Phrases.{phrases};
ghost use Rattle.page.specs.Printed.{
  cause_numbered,
  col,
  denial_at,
  figures_at,
  guess,
  over,
  print_result,
  printed,
  read_back,
  replies,
  said,
  same_line,
  PhraseTells,
  PrintedReadsBack,
  ReadBackPrints,
};
ghost use Rattle.page.specs.Printed.{layout as columns_of};
ghost use Rattle.dealing.specs.declared.outcome.Outcome.TheVariants.{Opened};

use crate::table::PhraseTable;
use clearing::cause::{Cause, Denial};
use dealing::outcome::{Figures, Outcome};
use dealing::refusal::Refusal;
use dealing::reply::{Reply, number, phrase_place};

// The bytes of a printed line.
pub const LINE: usize = 86;

// What stands on one line of a page: the number of the command line, and the reply to it.
#[derive(Clone, Copy, PartialEq, Eq, Debug)]
pub struct PageLine {
    pub number: u64,
    pub reply: Reply,
}

// A number and the width of the column that it stands in.
#[derive(Clone, Copy)]
struct Column {
    width: u32,
    value: u64,
}

impl Column {
    fn new(width: u32, value: u64) -> Column
        ensures { result ≡ col width value }
    {
        Column { width, value }
    }
}

fn layout(line: &PageLine) -> [Column; 8]
    ensures { result ≡ columns_of line.now }
{
    let (figures, denial) = match line.reply {
        Ok(outcome) => (outcome.figures(), None),
        Err(refusal) => (Figures::NONE, refusal.denial()),
    };
    let (cause, depth) = denial.map_or((0, 0), |denial| (denial.cause.number(), denial.depth));
    [
        Column::new(7, line.number),
        Column::new(3, u64::from(number(line.reply))),
        Column::new(2, u64::from(cause)),
        Column::new(2, u64::from(depth)),
        Column::new(7, u64::from(figures.number)),
        Column::new(8, figures.traded),
        Column::new(8, figures.resting),
        Column::new(8, figures.taken_off),
    ]
}

// The digits that stand before others, and blanks before them: none of a number that is used up.
fn put_leading(field: &mut [u8], n: u64)
    ensures { field.new ≡ leading (length field.old) n }
{
    if let Some((last, before)) = field.split_last_mut() {
        *last = if n == 0 { b' ' } else { b'0' + (n % 10) as u8 };
        put_leading(before, n / 10);
    }
}

// A number in all the columns of a field.
fn put_number(field: &mut [u8], n: u64)
    ensures { field.new ≡ column (length field.old) n }
{
    if let Some((last, before)) = field.split_last_mut() {
        *last = b'0' + (n % 10) as u8;
        put_leading(before, n / 10);
    }
}

fn all_fit(columns: &[Column; 8]) -> bool
    requires { all_narrow columns.now ≡ true }
    ensures { result ≡ all_fit columns.now }
{
    columns.iter().all(|c| c.value < 10u64.pow(c.width))
}

// The numbers, one column after the other.
fn put_columns(columns: &[Column], out: &mut [u8])
    requires { width_of columns.now ≤ length out.old }
    ensures { out.new ≡ across columns.now ++ drop (width_of columns.now) out.old }
{
    if let [column, more @ ..] = columns {
        let (field, rest) = out.split_at_mut(column.width as usize);
        put_number(field, column.value);
        put_columns(more, rest);
    }
}

fn digit(b: u8) -> u64
    ensures value { result ≡ digit_of b }
    ensures bound { result < 10 }
{
    if b.is_ascii_digit() {
        u64::from(b - b'0')
    } else {
        0
    }
}

// The number that the digits of some columns make; what is no digit counts 0.
fn numeral(bytes: &[u8]) -> u64
    requires { length bytes.now ≤ 8 }
    ensures value { result ≡ numeral_in 0 bytes.now }
    ensures bound { result < 10 ^ length bytes.now }
{
    let mut n = 0;
    for b in bytes {
        n = 10 * n + digit(*b);
    }
    n
}

// The cause with a number; what is no cause's number stands for the last.
fn cause_numbered(n: u8) -> Cause
    ensures { result ≡ cause_numbered n }
{
    Cause::try_from(n).unwrap_or(Cause::BadSetting)
}

// The reply whose phrase stands at a place, with the numbers that may go with it.
fn reply_at(place: usize, figures: Figures, denial: Denial) -> Reply
    requires { place < 28 }
    ensures { result ≡ slice_index_or (replies figures denial) place (Ok Opened) }
{
    match place {
        0 => Err(Refusal::WrongPeriod),
        1 => Err(Refusal::LotsOutOfRange),
        2 => Err(Refusal::MarketTerms),
        3 => Err(Refusal::PriceOutOfBand),
        4 => Err(Refusal::NumbersUsedUp),
        5 => Err(Refusal::OwnOrderFirst),
        6 => Err(Refusal::NotInFull),
        7 => Err(Refusal::RegisterFull),
        8 => Err(Refusal::QueueFull),
        9 => Err(Refusal::NoSuchOrder),
        10 => Err(Refusal::NotYourOrder),
        11 => Err(Refusal::ReductionOutOfRange),
        12 => Err(Refusal::OutOfStep),
        13 => Err(Refusal::CentreDenies(denial)),
        14 => Err(Refusal::CommandLength),
        15 => Err(Refusal::CommandLetter),
        16 => Err(Refusal::CommandNumber),
        17 => Ok(Outcome::Filled(figures)),
        18 => Ok(Outcome::Resting(figures)),
        19 => Ok(Outcome::PartResting(figures)),
        20 => Ok(Outcome::TakenOff(figures)),
        21 => Ok(Outcome::PartOffAtLimit(figures)),
        22 => Ok(Outcome::PartOffAtOwn(figures)),
        23 => Ok(Outcome::Withdrawn(figures)),
        24 => Ok(Outcome::Reduced(figures)),
        25 => Ok(Outcome::Suspended),
        26 => Ok(Outcome::Resumed),
        _ => Ok(Outcome::Opened),
    }
}

fn figures_at(bytes: &[u8; LINE]) -> Figures
    ensures { result ≡ figures_at bytes.now }
{
    Figures {
        number: numeral(&bytes[14..21]) as u32,
        traded: numeral(&bytes[21..29]),
        resting: numeral(&bytes[29..37]),
        taken_off: numeral(&bytes[37..45]),
    }
}

fn denial_at(bytes: &[u8; LINE]) -> Denial
    ensures { result ≡ denial_at bytes.now }
{
    Denial {
        cause: cause_numbered(numeral(&bytes[10..12]) as u8),
        depth: numeral(&bytes[12..14]) as u8,
    }
}

// The only line that these bytes can be, where the phrase at a place is theirs.
fn guessed(place: usize, bytes: &[u8; LINE]) -> PageLine
    requires { place < 28 }
    ensures { result ≡ guess bytes.now place }
{
    let number = numeral(&bytes[0..7]);
    let reply = reply_at(place, figures_at(bytes), denial_at(bytes));
    PageLine { number, reply }
}

impl PhraseTable {
    // Prints into the first 86 bytes of `out`, or leaves all of them as they were.
    #[tactic(auto, using(crate::proofs::Laws::printed_reads_back))]
    pub fn print(&self, line: &PageLine, out: &mut [u8]) -> Result<(), Refusal>
        ensures value { result ≡ said (print_result (phrases self.now.rows) line.now (length out.old)) }
        ensures bytes { out.new ≡ over (print_result (phrases self.now.rows) line.now (length out.old)) out.old }
        ensures reads_back { PrintedReadsBack }
        ensures phrase_tells { PhraseTells }
    {
        if out.len() < LINE {
            return Err(Refusal::LineTooShort);
        }
        let place = phrase_place(line.reply).ok_or(Refusal::NotPrintable)?;
        let columns = layout(line);
        if !all_fit(&columns) {
            return Err(Refusal::NotPrintable);
        }
        put_columns(&columns, out);
        out[45] = b' ';
        out[46..LINE].copy_from_slice(self.row(place));
        Ok(())
    }

    // The line that was printed so, with this table.
    #[tactic(auto, using(crate::proofs::Laws::read_back_prints))]
    pub fn read_back(&self, bytes: &[u8]) -> Result<PageLine, Refusal>
        ensures value { result ≡ read_back (phrases self.now.rows) bytes.now }
        ensures prints_back { ReadBackPrints }
    {
        let bytes: &[u8; LINE] = bytes.first_chunk().ok_or(Refusal::LineTooShort)?;
        let place = self.find(&bytes[46..]).ok_or(Refusal::NotPrintable)?;
        let line = guessed(place, bytes);
        if !self.prints(&line, bytes) {
            return Err(Refusal::NotPrintable);
        }
        Ok(line)
    }

    // Whether printing the line gives these bytes.
    fn prints(&self, line: &PageLine, bytes: &[u8; LINE]) -> bool
        ensures { result ≡ same_line (printed (phrases self.now.rows) line.now) bytes.now }
    {
        let mut again = [0; LINE];
        self.print(line, &mut again).is_ok() && again == *bytes
    }
}
