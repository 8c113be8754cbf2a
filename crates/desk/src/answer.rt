// A command line answered: it is read, its call is made, and the reply is printed under the line's number.
ghost use Rattle.std.specs.Prelude.{◌≡◌, ◌<◌, ◌≤◌, length, Ok, Err};
ghost use Rattle.dealing.specs.Replies.{Reply as AnyReply};
ghost use Rattle.dealing.specs.declared.refusal.Refusal.TheVariants.{LineTooShort, NotPrintable};
ghost use Rattle.desk.specs.Desk.{Called, Dealt, FitsPage, Shown};
ghost use Rattle.page.specs.Command.{read_command};
ghost use Rattle.page.specs.Phrases.{phrases};

use clearing::centre::Centre;
use dealing::refusal::Refusal;
use dealing::reply::Reply;
use market::market::Market;
use market::rule::QueueRule;
use page::command::read;
use page::printed::{LINE, PageLine};
use page::table::PhraseTable;

/// The last line number that its columns have room for.
pub const LAST_LINE: u64 = 9_999_999;

/// Reads a command line, of any bytes, and makes its call (docs/PAGE.md, section 1). The market does what `Market::call`
/// promises; a line that cannot be read leaves it as it was, and its refusal, 18 to 20, is the reply. The page has room for
/// every reply.
pub fn deal<R: QueueRule, C: Centre>(market: &mut Market<R, C>, line: &[u8]) -> Reply
    ensures dealt { Dealt (Called R.QueueRule.rule C.Centre.own C.Centre.lines C.Centre.same_settings)
        market.old (read_command line.now) market.new result }
    ensures fits { FitsPage result }
{
    market.call(read(line)?)
}

/// Answers a command line in the first 86 bytes of `out`, under its number. With room for a line, and a number up to
/// 9,999,999, there is always an answer, and it is shown. Otherwise no call is made, and `out` and the market stay as they
/// were: where `out` has under 86 bytes (17), or where the number is above 9,999,999 (21).
pub fn answer<R: QueueRule, C: Centre>(
    market: &mut Market<R, C>,
    table: &PhraseTable,
    number: u64,
    line: &[u8],
    out: &mut [u8],
) -> Result<(), Refusal>
    ensures short { length out.old < 86 →
        (result ≡ Err LineTooShort) × (out.new ≡ out.old) × (market.new ≡ market.old) }
    ensures over { 86 ≤ length out.old → 9999999 < number →
        (result ≡ Err NotPrintable) × (out.new ≡ out.old) × (market.new ≡ market.old) }
    ensures answered { 86 ≤ length out.old → number ≤ 9999999 →
        (reply : AnyReply)
        × Dealt (Called R.QueueRule.rule C.Centre.own C.Centre.lines C.Centre.same_settings)
        market.old (read_command line.now) market.new reply
        × Shown (phrases table.now.rows) number reply out.old out.new
        × (result ≡ Ok tt) }
{
    if out.len() < LINE {
        return Err(Refusal::LineTooShort);
    }
    if number > LAST_LINE {
        return Err(Refusal::NotPrintable);
    }
    let reply = deal(market, line);
    table.print(&PageLine { number, reply }, out)
}
