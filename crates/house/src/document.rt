// A TOML document read to what it says of a house.
ghost use Rattle.house.specs.Document.{entries_in, entries_of, kind_of, layer_of, layers_from, layers_of, margin_in, number_of, numbered, only, rule_of, settings_of, table_in, when};
ghost use Rattle.house.specs.Settings.{layer_view, settings_view};
ghost use Rattle.house.specs.Stop.{Reads};
ghost use Rattle.std.specs.List.{list_any};
ghost use Rattle.std.specs.Prelude.{◌≡◌, bytes_eq, codes, map, option_map};
ghost use Rattle.toml.specs.Data.{get_member};
ghost use Rattle.toml.specs.View.{items_view, table_view, view};

use crate::error::Expected;
use crate::place::Section;
use crate::rule::HouseRule;
use crate::settings::{Entry, Kind, Layer, Settings};
use crate::stop::Stop;
use std::alloc::Global;
use toml::{Table, Value};

// What is expected of a number, and of what stands under it.
#[derive(Clone, Copy)]
struct Expectations {
    number: Expected,
    value: Expected,
}

// What a key of a table holds.
fn value_at<'a>(table: &'a Table, key: &str) -> Option<&'a Value>
    ensures { option_map (λ v. view v.now) result ≡ get_member key.now (table_view table.now) }
{
    table.get(key)
}

fn number(text: &str) -> Option<i64>
    ensures { result ≡ number_of text.now }
{
    text.parse().ok()
}

// The value at a key that has to be there.
fn required<'a>(
    heap: Global,
    table: &'a Table,
    section: Section,
    key: &'static str,
) -> Result<&'a Value, Stop>
    ensures { Reads (λ v. view v.now) (get_member key.now (table_view table.now)) result }
{
    match value_at(table, key) {
        Some(value) => Ok(value),
        None => Err(Stop::at(heap, section, "", Expected::Key(key))),
    }
}

// The table at a key.
fn table_at<'a>(
    heap: Global,
    table: &'a Table,
    section: Section,
    key: &'static str,
) -> Result<&'a Table, Stop>
    ensures { Reads (λ t. table_view t.now) (table_in key.now (table_view table.now)) result }
{
    match required(heap, table, section, key)?.as_table() {
        Some(found) => Ok(found),
        None => Err(Stop::at(heap, section, key, Expected::Table)),
    }
}

// Whether a key is one of these.
fn is_among(key: &str, keys: &[&str]) -> bool
    ensures { result ≡ list_any (λ k. bytes_eq key.now k.now) keys.now }
{
    keys.iter().any(|known| key == *known)
}

// Refuses a key that is none of these.
fn check_keys(
    heap: Global,
    table: &Table,
    section: Section,
    keys: &[&str],
    names: &'static str,
) -> Result<(), Stop>
    ensures { Reads (λ u. u) (when (only (λ b. list_any (λ k. bytes_eq b k.now) keys.now) (table_view table.now))) result }
{
    for (key, _value) in table.iter() {
        if !is_among(key.as_str(), keys) {
            return Err(Stop::at(heap, section, key.as_str(), Expected::NoOtherKey(names)));
        }
    }
    Ok(())
}

// A number under a key that is a number.
fn entry(
    heap: Global,
    section: Section,
    key: &str,
    value: &Value,
    expected: Expectations,
) -> Result<Entry, Stop>
    ensures { Reads (λ e. e) (numbered key.now (view value.now)) result }
{
    let Some(number) = number(key) else {
        return Err(Stop::at(heap, section, key, expected.number));
    };
    match value.as_integer() {
        Some(value) => Ok(Entry { number, value }),
        None => Err(Stop::at(heap, section, key, expected.value)),
    }
}

// A table of numbers under numbers.
fn entries(
    heap: Global,
    table: &Table,
    section: Section,
    expected: Expectations,
) -> Result<Vec<Entry>, Stop>
    ensures { Reads (λ es. es.items) (entries_of (table_view table.now)) result }
{
    let mut read = Vec::new(heap);
    for (key, value) in table.iter() {
        read.push(entry(heap, section, key.as_str(), value, expected)?)?;
    }
    Ok(read)
}

// The queue rule of the first instrument.
fn rule(heap: Global, document: &Table) -> Result<HouseRule, Stop>
    ensures { Reads (λ r. r) (rule_of (table_view document.now)) result }
{
    let instruments = table_at(heap, document, Section::Document, "instrument")?;
    check_keys(heap, instruments, Section::Instruments, &["1"], "1")?;
    let instrument = table_at(heap, instruments, Section::Instruments, "1")?;
    check_keys(heap, instrument, Section::Instrument, &["rule"], "rule")?;
    let rule = required(heap, instrument, Section::Instrument, "rule")?;
    match rule.as_str() {
        Some("rate") => Ok(HouseRule::Rate),
        Some("yield") => Ok(HouseRule::Yield),
        _ => Err(Stop::at(heap, Section::Instrument, "rule", Expected::Rule)),
    }
}

// The margin of a prepaid centre.
fn margin(heap: Global, centre: &Table) -> Result<i64, Stop>
    ensures { Reads (λ m. m) (margin_in (table_view centre.now)) result }
{
    match required(heap, centre, Section::Centre, "margin")?.as_integer() {
        Some(margin) => Ok(margin),
        None => Err(Stop::at(heap, Section::Centre, "margin", Expected::Margin)),
    }
}

// The kind of the centre, which says what other keys its table has.
fn kind(heap: Global, centre: &Table) -> Result<Kind, Stop>
    ensures { Reads (λ k. k) (kind_of (table_view centre.now)) result }
{
    let kind = required(heap, centre, Section::Centre, "kind")?;
    match kind.as_str() {
        Some("position") => {
            check_keys(
                heap,
                centre,
                Section::Centre,
                &["kind", "accounts"],
                "kind, accounts",
            )?;
            Ok(Kind::Position)
        }
        Some("prepaid") => {
            check_keys(
                heap,
                centre,
                Section::Centre,
                &["kind", "margin", "accounts"],
                "kind, margin, accounts",
            )?;
            Ok(Kind::Prepaid(margin(heap, centre)?))
        }
        _ => Err(Stop::at(heap, Section::Centre, "kind", Expected::Kind)),
    }
}

// The table of entries at a key.
fn entries_at(
    heap: Global,
    table: &Table,
    section: Section,
    key: &'static str,
    inner: Section,
    expected: Expectations,
) -> Result<Vec<Entry>, Stop>
    ensures { Reads (λ es. es.items) (entries_in key.now (table_view table.now)) result }
{
    let found = table_at(heap, table, section, key)?;
    entries(heap, found, inner, expected)
}

// A firm cap.
fn layer(heap: Global, value: &Value, nth: usize) -> Result<Layer, Stop>
    ensures { Reads layer_view (layer_of (view value.now)) result }
{
    let section = Section::Layer(nth);
    let Some(table) = value.as_table() else {
        return Err(Stop::at(heap, section, "", Expected::Table));
    };
    check_keys(heap, table, section, &["members", "caps"], "members, caps")?;
    let firms = Expectations {
        number: Expected::Account,
        value: Expected::Firm,
    };
    let members = entries_at(
        heap,
        table,
        section,
        "members",
        Section::Members(nth),
        firms,
    )?;
    let limits = Expectations {
        number: Expected::Firm,
        value: Expected::Cap,
    };
    let caps = entries_at(heap, table, section, "caps", Section::Caps(nth), limits)?;
    Ok(Layer { members, caps })
}

// The firm caps of a list.
fn layers_in(heap: Global, values: &[Value]) -> Result<Vec<Layer>, Stop>
    ensures { Reads (λ ls. map layer_view ls.items) (layers_from (items_view values.now)) result }
{
    let mut read = Vec::new(heap);
    for value in values {
        let nth = read.len().saturating_add(1);
        read.push(layer(heap, value, nth)?)?;
    }
    Ok(read)
}

// The firm caps of a document; none where it has no such key.
fn layers(heap: Global, document: &Table) -> Result<Vec<Layer>, Stop>
    ensures { Reads (λ ls. map layer_view ls.items) (layers_of (get_member (codes "cap") (table_view document.now))) result }
{
    let Some(value) = value_at(document, "cap") else {
        return Ok(Vec::new(heap));
    };
    match value.as_array() {
        Some(values) => layers_in(heap, values.as_slice()),
        None => Err(Stop::at(heap, Section::Document, "cap", Expected::Tables)),
    }
}

// The accounts of a centre of this kind.
fn accounts(heap: Global, centre: &Table, kind: Kind) -> Result<Vec<Entry>, Stop>
    ensures { Reads (λ es. es.items) (entries_in (codes "accounts") (table_view centre.now)) result }
{
    let expected = Expectations {
        number: Expected::Account,
        value: kind.allowance(),
    };
    entries_at(
        heap,
        centre,
        Section::Centre,
        "accounts",
        Section::Accounts,
        expected,
    )
}

/// What a document says of a house.
pub(crate) fn settings(heap: Global, document: &Table) -> Result<Settings, Stop>
    ensures { Reads settings_view (settings_of (table_view document.now)) result }
{
    let keys = ["instrument", "centre", "cap"];
    check_keys(
        heap,
        document,
        Section::Document,
        &keys,
        "instrument, centre, cap",
    )?;
    let rule = rule(heap, document)?;
    let centre = table_at(heap, document, Section::Document, "centre")?;
    let kind = kind(heap, centre)?;
    let accounts = accounts(heap, centre, kind)?;
    let layers = layers(heap, document)?;
    Ok(Settings {
        rule,
        kind,
        accounts,
        layers,
    })
}
