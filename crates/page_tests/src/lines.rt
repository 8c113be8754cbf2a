// Printed lines, and what they read back as.
ghost use Rattle.std.specs.Prelude.{◌≤◌};

use clearing::cause::{Cause, Denial};
use dealing::outcome::{Figures, Outcome};
use dealing::refusal::Refusal;
use dealing::reply::Reply;
use page::english::english;
use page::printed::PageLine;
use page::table::PhraseTable;

// The replies that own a phrase.
fn replies(f: Figures, denial: Denial) -> [Reply; 28] {
    [
        Err(Refusal::WrongPeriod),
        Err(Refusal::LotsOutOfRange),
        Err(Refusal::MarketTerms),
        Err(Refusal::PriceOutOfBand),
        Err(Refusal::NumbersUsedUp),
        Err(Refusal::OwnOrderFirst),
        Err(Refusal::NotInFull),
        Err(Refusal::RegisterFull),
        Err(Refusal::QueueFull),
        Err(Refusal::NoSuchOrder),
        Err(Refusal::NotYourOrder),
        Err(Refusal::ReductionOutOfRange),
        Err(Refusal::OutOfStep),
        Err(Refusal::CentreDenies(denial)),
        Err(Refusal::CommandLength),
        Err(Refusal::CommandLetter),
        Err(Refusal::CommandNumber),
        Ok(Outcome::Filled(f)),
        Ok(Outcome::Resting(f)),
        Ok(Outcome::PartResting(f)),
        Ok(Outcome::TakenOff(f)),
        Ok(Outcome::PartOffAtLimit(f)),
        Ok(Outcome::PartOffAtOwn(f)),
        Ok(Outcome::Withdrawn(f)),
        Ok(Outcome::Reduced(f)),
        Ok(Outcome::Suspended),
        Ok(Outcome::Resumed),
        Ok(Outcome::Opened),
    ]
}

// Prints into 200 bytes; the line reads back as what was printed, and the bytes past it are left alone.
fn goes_round(table: &PhraseTable, line: PageLine) -> bool {
    let mut out = [0xaa; 200];
    table.print(&line, &mut out).is_ok()
        && out[86..].iter().all(|&b| b == 0xaa)
        && table.read_back(&out) == Ok(line)
}

fn all_go_round(number: u64, figures: Figures, denial: Denial) -> bool {
    let table = english();
    replies(figures, denial)
        .iter()
        .all(|&reply| goes_round(&table, PageLine { number, reply }))
}

const LARGEST: Figures = Figures {
    number: 9_999_999,
    traded: 99_999_999,
    resting: 99_999_999,
    taken_off: 99_999_999,
};

#[test]
fn every_reply_goes_round(rt: HostRuntime) {
    let low = Denial {
        cause: Cause::NoLine,
        depth: 0,
    };
    let high = Denial {
        cause: Cause::BadSetting,
        depth: 99,
    };
    assert!(rt; all_go_round(0, Figures::NONE, low));
    assert!(rt; all_go_round(9_999_999, LARGEST, high));
    assert!(rt;
        all_go_round(
            1_000_000,
            Figures {
                number: 1,
                traded: 10,
                resting: 200,
                taken_off: 3_000,
            },
            low,
        )
    );
}

// Nothing is printed, and the caller's bytes are as they were.
fn is_refused(line: PageLine, len: usize, refusal: Refusal) -> bool
    requires { len ≤ 200 }
{
    let mut out = [0xaa; 200];
    english().print(&line, &mut out[0..len]) == Err(refusal) && out.iter().all(|&b| b == 0xaa)
}

#[test]
fn one_beyond_each_column(rt: HostRuntime) {
    let beyond = [
        Figures {
            number: 10_000_000,
            ..Figures::NONE
        },
        Figures {
            traded: 100_000_000,
            ..Figures::NONE
        },
        Figures {
            resting: 100_000_000,
            ..Figures::NONE
        },
        Figures {
            taken_off: u64::MAX,
            ..Figures::NONE
        },
    ];
    for figures in beyond {
        let reply = Ok(Outcome::Filled(figures));
        assert!(rt; is_refused(PageLine { number: 1, reply }, 86, Refusal::NotPrintable));
    }
    let deep = Err(Refusal::CentreDenies(Denial {
        cause: Cause::OverFirmCap,
        depth: 100,
    }));
    assert!(rt;
        is_refused(
            PageLine {
                number: 1,
                reply: deep,
            },
            86,
            Refusal::NotPrintable,
        )
    );
    let opened = Ok(Outcome::Opened);
    assert!(rt;
        is_refused(
            PageLine {
                number: 10_000_000,
                reply: opened,
            },
            200,
            Refusal::NotPrintable,
        )
    );
}

#[test]
fn no_phrase_no_line(rt: HostRuntime) {
    let unowned = [
        Refusal::UnsoundText,
        Refusal::SharedPhrase,
        Refusal::LineTooShort,
        Refusal::NotPrintable,
    ];
    for refusal in unowned {
        let line = PageLine {
            number: 1,
            reply: Err(refusal),
        };
        assert!(rt; is_refused(line, 86, Refusal::NotPrintable));
        assert!(rt; is_refused(line, 85, Refusal::LineTooShort));
    }
    assert!(rt;
        is_refused(
            PageLine {
                number: 1,
                reply: Ok(Outcome::Opened),
            },
            0,
            Refusal::LineTooShort,
        )
    );
    assert!(rt; english().read_back(b"").is_err());
}

// A byte changed in a printed line makes it another line that prints so, or no line.
#[test]
fn changed_bytes(rt: HostRuntime) {
    let table = english();
    let figures = Figures {
        number: 3,
        traded: 10,
        resting: 0,
        taken_off: 5,
    };
    let line = PageLine {
        number: 4,
        reply: Ok(Outcome::PartOffAtOwn(figures)),
    };
    let mut out = [0; 86];
    assert!(rt; table.print(&line, &mut out).is_ok());
    assert!(rt;
        &out[0..80]
            == b"      4 55 0 0      3      10       0       5 Part traded, rest off at own order".as_slice()
    );
    for i in 0..86usize {
        let mut other = out;
        other[i] ^= 1;
        if let Ok(found) = table.read_back(&other) {
            let mut again = [0; 86];
            assert!(rt; table.print(&found, &mut again).is_ok() && again == other);
        }
    }
    assert!(rt; table.read_back(&out[0..85]).is_err());
}
