// A market at its desk: command lines come in, and printed lines go out.
ghost use Rattle.std.specs.Prelude.{◌≡◌, ◌≤◌, ◌∷◌, [], List, ℕ, drop, length, IfErr, OnOk, OnSome};
ghost use Rattle.std.specs.Io.KnownBytes.{IsAtEnd};
ghost use Rattle.std.proofs.Common.{rules};
ghost use Rattle.line_service.specs.Lines.{AreLines};
ghost use Rattle.line_service.specs.Page.{Serves};
ghost use Rattle.line_service.specs.Stops.{Stops};
ghost use Rattle.page.specs.Phrases.{phrases};

use crate::answer::{LAST_LINE, answer};
use clearing::centre::Centre;
use line_service::error::ServeError;
use line_service::serve::serve;
use line_service::service::LineService;
use market::market::Market;
use market::rule::QueueRule;
use page::printed::LINE;
use page::table::PhraseTable;
use std::io::{BufRead, Write};

/// A market with the phrases that its answers are printed in. Like the market it is never let go: it ends by `into_market`.
pub struct Desk<R, C> {
    market: Market<R, C>,
    table: PhraseTable,
    // The last printed line, with a byte 10 behind it.
    printed: [u8; LINE + 1],
    ghost ended: { drop 86 printed ≡ 10 ∷ [] },
}

impl<R, C> Desk<R, C> {
    /// A desk of a market, which may have traded before.
    pub fn new(market: Market<R, C>, table: PhraseTable) -> Desk<R, C>
        ensures market { result.market ≡ market }
        ensures table { result.table ≡ table }
    {
        Desk {
            market,
            table,
            printed: [b'\n'; LINE + 1],
        }
    }

    /// The market, at the end of a session, to be closed or to go on.
    pub fn into_market(self) -> Market<R, C>
        ensures { result ≡ self.market }
    {
        let Desk {
            market,
            table: _,
            printed: _,
        } = self;
        market
    }
}

impl<R: QueueRule, C: Centre> Desk<R, C> {
    ghost use Rattle.desk.specs.Served.{LinesKeepTheLaw, after, desk_of, shown};

    /// Answers every line of the input, in whatever pieces it comes: each by its printed line and a byte 10, under its number
    /// from 1 on. The output is flushed before the input is waited for, and at the end. See docs/PAGE.md, section 4.
    ///
    /// A read or a write that fails ends it, and so does a line after number 9,999,999, which is not looked at. Whatever
    /// ends it, the law holds of the market, and neither the queue rule nor a setting nor a phrase has changed.
    pub fn serve<I: BufRead, O: Write>(
        &mut self,
        input: &mut I,
        output: &mut O,
    ) -> Result<(), ServeError>
        // All of the input was read, and the page of all of its lines is written.
        ensures ok { OnOk result ((lines : List (List ℕ)) × AreLines (I.remaining input.old) lines
            × OnSome (I.remaining input.old) (IsAtEnd (I.remaining input.new))
            × (length lines ≤ 9999999)
            × Serves shown after
            (desk_of R.QueueRule.rule C.Centre.own C.Centre.lines (phrases self.old.table.rows) self.old.market)
            (desk_of R.QueueRule.rule C.Centre.own C.Centre.lines (phrases self.new.table.rows) self.new.market)
            1 lines (O.contents output.old) (O.contents output.new)) }

        // The page of the first lines is written, at an error of writing with a front of one more answer.
        ensures err { IfErr result (Stops shown after 9999999
            (desk_of R.QueueRule.rule C.Centre.own C.Centre.lines (phrases self.old.table.rows) self.old.market)
            (desk_of R.QueueRule.rule C.Centre.own C.Centre.lines (phrases self.new.table.rows) self.new.market)
            (I.remaining input.old) (I.remaining input.new) (O.contents output.old) (O.contents output.new)) }

        // Any lines go on from whatever calls led here, and keep the law.
        ensures law { LinesKeepTheLaw
            (desk_of R.QueueRule.rule C.Centre.own C.Centre.lines (phrases self.old.table.rows) self.old.market) }
        ensures rule { self.new.market.book.rule ≡ self.old.market.book.rule }
        ensures settings { C.Centre.same_settings self.old.market.centre self.new.market.centre }
        ensures phrases { self.new.table ≡ self.old.table }
    {
        serve(self, input, output)
    }
}

impl<R: QueueRule, C: Centre> LineService for Desk<R, C> {
    ghost use Rattle.desk.specs.Cut.{after_cut, shown_cut};
    ghost use Rattle.desk.specs.Served.{DeskState, after, desk_of, shown};

    ghost State = { DeskState };

    ghost state = { λ d. desk_of R.QueueRule.rule C.Centre.own C.Centre.lines (phrases d.table.rows) d.market };

    ghost shown = { shown };

    ghost next = { after };

    ghost printed = { λ d. d.printed };

    // The queue rule, all settings of the centre and the phrases.
    ghost kept = { λ d e. (e.market.book.rule ≡ d.market.book.rule)
        × C.Centre.same_settings d.market.centre e.market.centre
        × (e.table ≡ d.table) };

    ghost LONGEST = { 38 };

    ghost LAST = { 9999999 };

    const LONGEST: usize = 38;

    const LAST: u64 = LAST_LINE;

    ghost kept_self = { Prim.search rules };

    ghost kept_on = { Prim.search rules };

    ghost has_room = { Prim.search rules };

    ghost looks_shown = { shown_cut };

    ghost looks_next = { after_cut };

    fn answer(&mut self, number: u64, line: &[u8]) {
        let _ = answer(
            &mut self.market,
            &self.table,
            number,
            line,
            &mut self.printed,
        );
    }

    fn printed(&self) -> &[u8] {
        &self.printed
    }
}
