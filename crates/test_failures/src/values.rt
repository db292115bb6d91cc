//! Values that calls are given, made with enough memory.

use crate::cases::{CERTIFICATE, DATA, RULES, TABLE, TAILORED};
use std::alloc::{Allocator, Global};
use std::test::Fail;
use test_kit::samples;
use uca_certificates::{Certificate, read_certificate};
use uca_key::key;
use uca_match::{Collator, Lookup};
use uca_rules::{Rules, read_rules};
use uca_table::{read_data, read_table};
use uca_tailor::tailor;
use uca_text::{Normal, normal};
use uca_values::{Data, Table};
use uca_weights::Depth::Weights;
use uca_weights::Source;
use uca_weights::Weighting::NonIgnorable;

/// Letters, accents, and contractions whose first letters have rows after them or none.
const CONTRACTIONS: &str = "@version 1\n\
    0061 0301 0300 ; [.1C58.0020.0002]\n\
    0078 0301 ; [.1C90.0020.0002]\n\
    0020 ; [*0209.0020.0002]\n\
    0061 0301 ; [.1C50.0020.0002]\n\
    0061 ; [.1C47.0020.0002]\n\
    0062 ; [.1C60.0020.0002]\n\
    0301 ; [.0000.0024.0002]\n";

/// The classes of two accents.
const CLASSES: &str = "@data 1\nccc 0300..0301 230\n";

fn table_of(ample: Global, text: &str) -> Result<Table, Fail> {
    Ok(read_table(ample, &mut Source::new(text.as_bytes()))?)
}

fn data_of(ample: Global, text: &str) -> Result<Data, Fail> {
    Ok(read_data(ample, &mut Source::new(text.as_bytes()))?)
}

/// The small table.
pub fn base(ample: Global) -> Result<Table, Fail> {
    table_of(ample, TABLE)
}

/// The small table with a new row.
pub fn tailored(ample: Global) -> Result<Table, Fail> {
    table_of(ample, TAILORED)
}

/// A table with contractions.
pub fn contractions(ample: Global) -> Result<Table, Fail> {
    table_of(ample, CONTRACTIONS)
}

/// The properties of code points.
pub fn properties(ample: Global) -> Result<Data, Fail> {
    data_of(ample, DATA)
}

/// Those of texts with two accents.
pub fn classes(ample: Global) -> Result<Data, Fail> {
    data_of(ample, CLASSES)
}

fn rules_of(ample: Global, text: &str, properties: &Data) -> Result<Rules, Fail> {
    Ok(read_rules(ample, text.as_bytes(), properties)?)
}

/// Rules of one relation.
pub fn rules(ample: Global, properties: &Data) -> Result<Rules, Fail> {
    rules_of(ample, RULES, properties)
}

/// The certificate of the small tailoring.
pub fn certificate(ample: Global) -> Result<Certificate, Fail> {
    let mut source = Source::new(CERTIFICATE.as_bytes());
    Ok(read_certificate(ample, &mut source)?)
}

// The certificate of rules.
fn certificate_of(
    ample: Global,
    (table, properties, rules): (&Table, &Data, &Rules),
) -> Result<Certificate, Fail> {
    let (table, certificate) = tailor(ample, table, properties, rules)?;
    drop(table);
    Ok(certificate)
}

// The certificate of the small rules.
fn certificate_of_rules(
    ample: Global,
    table: &Table,
    properties: &Data,
) -> Result<Certificate, Fail> {
    let rules = rules(ample, properties)?;
    let certificate = certificate_of(ample, (table, properties, &rules));
    drop(rules);
    certificate
}

fn certificate_over(ample: Global, table: &Table) -> Result<Certificate, Fail> {
    let properties = data_of(ample, samples::DATA)?;
    let certificate = certificate_of_rules(ample, table, &properties);
    drop(properties);
    certificate
}

/// The certificate of the same rules over the table that other tests share.
pub fn worked_certificate(ample: Global) -> Result<Certificate, Fail> {
    let table = table_of(ample, samples::TABLE)?;
    let certificate = certificate_over(ample, &table);
    drop(table);
    certificate
}

fn text_of(ample: Global, text: &str, properties: &Data) -> Result<Normal, Fail> {
    Ok(normal(ample, text, properties)?)
}

/// A text with a variable element and an accent.
pub const ACCENTED: &str = "a b\u{301}";

/// `ACCENTED` in Normalization Form D.
pub fn accented_text(ample: Global, properties: &Data) -> Result<Normal, Fail> {
    text_of(ample, ACCENTED, properties)
}

/// The key of the text with all contractions, as a collator has it.
pub fn key_of_contractions<L: Lookup, A: Allocator>(
    ample: Global,
    collator: &Collator<L, A>,
) -> Result<Vec<u8>, Fail> {
    let text = normal(ample, "a\u{301}\u{300}x\u{301}a\u{301}b", collator.data)?;
    Ok(key(ample, collator, NonIgnorable, Weights, &text)?)
}
