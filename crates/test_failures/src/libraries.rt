//! The calls of the libraries that the cases name: each reads, writes or makes something, and shows what it has made.

use crate::answers::Memory;
use crate::streams::Streams;
use crate::values::{
    ACCENTED, accented_text, base, certificate, classes, contractions, key_of_contractions,
    properties, rules, tailored, worked_certificate,
};
use std::alloc::{AllocError, Allocator, Global};
use std::fmt::Display;
use std::test::Fail;
use test_kit::Refusing;
use uca_audit::audit;
use uca_certificates::{Certificate, CertificateFault, read_certificate, write_certificate};
use uca_key::{KeyBuffer, KeyWriter, key, key_of};
use uca_lines::{LineFault, LineReader, NextLine};
use uca_match::{Collator, KeyMap, Lookup, RowList, Trie, key_list};
use uca_rules::{Relation, RuleFault, Rules, read_rules_in};
use uca_table::{read_data, read_table, write_table};
use uca_tailor::{TailorFault, tailor};
use uca_text::{Normal, TextFault};
use uca_values::{ClassRange, CodePointRange, Data, RangeFault, Table, TableFault};
use uca_weights::Depth::{Identical, Weights};
use uca_weights::Weighting::Shifted;
use uca_weights::{Numbers, Settings};

// What is said of a result.
fn said<E: Display + Drop>(ample: Global, answer: Result<(), E>) -> Result<String, Fail> {
    match answer {
        Ok(()) => Ok(String::from_str(ample, "done")?),
        Err(fault) => Ok(format!(in ample; "{fault}")?),
    }
}

// What is said of a result without a position.
fn said_of_memory(ample: Global, answer: Result<(), AllocError>) -> Result<String, Fail> {
    let said = if answer.is_ok() { "done" } else { "memory" };
    Ok(String::from_str(ample, said)?)
}

// Writes what a call has made. No writer fails then.
fn show(streams: &mut Streams, bytes: &[u8]) {
    let _ = streams.out.write_all(bytes);
}

fn reads_table(memory: Memory, streams: &mut Streams) -> Result<(), TableFault> {
    let table = read_table(memory.tried, &mut streams.table)?;
    let _ = write_table(&table, &mut streams.out);
    drop(table);
    Ok(())
}

// Writes the classes of two accents, and whether two ideographs are core Han or others.
fn show_properties<A: Allocator>(streams: &mut Streams, data: &Data<A>) {
    let above = data.class('\u{301}');
    let below = data.class('\u{323}');
    let core = u8::from(data.is_core('\u{4E00}'));
    let other = u8::from(data.is_other('\u{20000}'));
    show(streams, &[above, below, core, other]);
}

fn reads_data(memory: Memory, streams: &mut Streams) -> Result<(), TableFault> {
    let data = read_data(memory.tried, &mut streams.table)?;
    show_properties(streams, &data);
    drop(data);
    Ok(())
}

fn reads_certificate(memory: Memory, streams: &mut Streams) -> Result<(), CertificateFault> {
    let certificate = read_certificate(memory.tried, &mut streams.table)?;
    let _ = write_certificate(&certificate, &mut streams.out);
    drop(certificate);
    Ok(())
}

fn name_of(fault: LineFault) -> &'static str {
    match fault {
        LineFault::Read => "Read",
        LineFault::Memory => "Memory",
        _ => "another fault",
    }
}

// Adds the lines to those before, without what ends them. There are fewer than 100.
fn add_lines(
    memory: Memory,
    reader: &mut LineReader,
    streams: &mut Streams,
    lines: &mut Vec<u8>,
) -> Result<(), LineFault> {
    let mut line = Vec::new(memory.tried);
    for _ in 0..100 {
        if reader.next_line(&mut streams.table, &mut line)? == NextLine::EndOfInput {
            return Ok(());
        }
        let _ = lines.extend_from_slice(&line);
    }
    Ok(())
}

fn reads_lines(memory: Memory, streams: &mut Streams) -> Result<String, Fail> {
    let mut reader = LineReader::new(127);
    let mut lines = Vec::new(memory.ample);
    if let Err(fault) = add_lines(memory, &mut reader, streams, &mut lines) {
        let name = name_of(fault);
        let line = reader.number().saturating_add(1);
        return Ok(format!(in memory.ample; "line {line}: {name}")?);
    }
    show(streams, &lines);
    Ok(String::from_str(memory.ample, "done")?)
}

/// Rules of three relations. One has an expansion.
const RULES: &str = "&a < x / b &b << y = z";

fn push_text(found: &mut String, text: &Normal) -> Result<(), AllocError> {
    for c in text.chars() {
        found.push(*c)?;
    }
    found.push(' ')
}

fn push_relation(found: &mut String, relation: &Relation) -> Result<(), AllocError> {
    push_text(found, &relation.anchor)?;
    push_text(found, &relation.target)?;
    if let Some(expansion) = &relation.expansion {
        push_text(found, expansion)?;
    }
    found.push('\n')
}

// The texts of the relations.
fn text_of_rules<A: Allocator>(ample: Global, rules: &Rules<A>) -> Result<String, AllocError> {
    let mut text = String::new(ample);
    for relation in rules.relations() {
        push_relation(&mut text, relation)?;
    }
    Ok(text)
}

// Writes the texts of the relations.
fn show_rules<A: Allocator>(
    memory: Memory,
    streams: &mut Streams,
    rules: &Rules<A>,
) -> Result<String, Fail> {
    let text = text_of_rules(memory.ample, rules)?;
    show(streams, text.as_bytes());
    Ok(String::from_str(memory.ample, "done")?)
}

fn reads_rules(memory: Memory, streams: &mut Streams, data: &Data) -> Result<String, Fail> {
    match read_rules_in(memory.tried, memory.ample, RULES.as_bytes(), data) {
        Ok(rules) => {
            let shown = show_rules(memory, streams, &rules);
            drop(rules);
            shown
        }
        Err(fault) => said::<RuleFault>(memory.ample, Err(fault)),
    }
}

/// A call that reads.
pub fn reads(memory: Memory, streams: &mut Streams, name: &str) -> Result<String, Fail> {
    match name {
        "table" => said(memory.ample, reads_table(memory, streams)),
        "data" => said(memory.ample, reads_data(memory, streams)),
        "certificate" => said(memory.ample, reads_certificate(memory, streams)),
        "lines" => reads_lines(memory, streams),
        "rules" => reads_rules(memory, streams, &properties(memory.ample)?),
        _ => Err(Fail::new(name)),
    }
}

/// A call that writes. It takes no memory.
pub fn writes(memory: Memory, streams: &mut Streams, name: &str) -> Result<String, Fail> {
    match name {
        "table" => writes_table(memory, streams),
        "certificate" => writes_certificate(memory, streams),
        _ => Err(Fail::new(name)),
    }
}

fn writes_table(memory: Memory, streams: &mut Streams) -> Result<String, Fail> {
    let table = base(memory.ample)?;
    let written = write_table(&table, &mut streams.out);
    drop(table);
    said(memory.ample, written)
}

fn writes_certificate(memory: Memory, streams: &mut Streams) -> Result<String, Fail> {
    let certificate = worked_certificate(memory.ample)?;
    let written = write_certificate(&certificate, &mut streams.out);
    drop(certificate);
    said(memory.ample, written)
}

/// The classes of two accents.
const ABOVE: ClassRange = ClassRange {
    first: '\u{300}',
    last: '\u{314}',
    class: 230,
};

const BELOW: ClassRange = ClassRange {
    first: '\u{323}',
    last: '\u{323}',
    class: 220,
};

/// Ideographs of the core and others.
const CORE: CodePointRange = CodePointRange {
    first: '\u{4E00}',
    last: '\u{9FFF}',
};

const OTHER: CodePointRange = CodePointRange {
    first: '\u{20000}',
    last: '\u{20FFF}',
};

// Adds properties one at a time.
fn add_properties<A: Allocator>(data: &mut Data<A>) -> Result<(), RangeFault> {
    data.add_class(ABOVE)?;
    data.add_class(BELOW)?;
    data.add_core(CORE)?;
    data.add_other(OTHER)
}

// Properties that are added one at a time.
fn makes_properties(memory: Memory, streams: &mut Streams) -> Result<(), RangeFault> {
    let mut data = Data::new(memory.tried);
    let added = add_properties(&mut data);
    if added.is_ok() {
        show_properties(streams, &data);
    }
    drop(data);
    added
}

// Writes the key of a text with all rows of a table.
fn show_key<L: Lookup>(
    memory: Memory,
    streams: &mut Streams,
    table: &Table,
    rows: &L,
) -> Result<String, Fail> {
    let data = classes(memory.ample)?;
    let collator = Collator::new(rows, &table.header, &data);
    let key = key_of_contractions(memory.ample, &collator);
    drop(data);
    show(streams, &key?);
    Ok(String::from_str(memory.ample, "done")?)
}

// A trie that finds each row of a table.
fn makes_trie(memory: Memory, streams: &mut Streams, table: &Table) -> Result<String, Fail> {
    match Trie::new(memory.tried, table) {
        Ok(rows) => {
            let shown = show_key(memory, streams, table, &rows);
            drop(rows);
            shown
        }
        Err(_) => Ok(String::from_str(memory.ample, "memory")?),
    }
}

// The keys of a table, each with `;` after it.
fn text_of_keys(ample: Global, keys: &[&[char]]) -> Result<String, AllocError> {
    let mut text = String::new(ample);
    for key in keys {
        for point in *key {
            text.push(*point)?;
        }
        text.push(';')?;
    }
    Ok(text)
}

// The keys of a table, borrowed.
fn makes_key_list(memory: Memory, streams: &mut Streams, table: &Table) -> Result<(), AllocError> {
    let keys = key_list(memory.tried, &table.rows)?;
    let text = text_of_keys(memory.ample, &keys)?;
    show(streams, text.as_bytes());
    Ok(())
}

// A map of the keys of a table to their positions. For the seven keys of `contractions` it asks for 14 allocations.
// First come the pages of the root, with the page of all others, and that of U+0000 and that of U+0301. The nine nodes
// take three (for 4, 8 and 16). Then there are the list of the keys of more than one code point, and the edges of three
// nodes. The last three are for what follows a first code point: the pages, the page of all others, and that of U+0301.
// A trie of that table asks for its rows first: twice for where they are (for 4 and 8), three times for the code points of
// keys (for 4, 8 and 16), and twice for elements (for 4 and 8). Then it asks for the list of the keys, and for all of these.
fn map_of<'a>(memory: Memory<'a>, table: &Table) -> Result<KeyMap<&'a Refusing>, AllocError> {
    let keys = key_list(memory.ample, &table.rows)?;
    KeyMap::new(memory.tried, &keys)
}

// The position of a key as a byte; there are fewer than 255.
fn position_of<A: Allocator>(map: &KeyMap<A>, key: &[char]) -> u8 {
    match map.position(key) {
        Some(position) => u8::try_from(position).unwrap_or(0xFF),
        None => 0xFF,
    }
}

// Writes the position of each key of a table, and that of one that is no key.
fn makes_key_map(memory: Memory, streams: &mut Streams, table: &Table) -> Result<(), AllocError> {
    let map = map_of(memory, table)?;
    for row in &table.rows {
        show(streams, &[position_of(&map, &row.key)]);
    }
    show(streams, &[position_of(&map, &['x'])]);
    drop(map);
    Ok(())
}

fn makes_key_positions(
    memory: Memory,
    streams: &mut Streams,
    table: &Table,
    is_map: bool,
) -> Result<String, Fail> {
    let answer = if is_map {
        makes_key_map(memory, streams, table)
    } else {
        makes_key_list(memory, streams, table)
    };
    said_of_memory(memory.ample, answer)
}

// A key as it is made at once. For `accented_text` it asks for 8 allocations: one for each of the four levels, and for
// the key one of 8 bytes, of 16, of 32, and of 64 for the code points. A key of its elements alone needs no 64.
fn makes_key(
    memory: Memory,
    streams: &mut Streams,
    collator: &Collator<RowList>,
    text: &Normal,
) -> Result<(), AllocError> {
    let bytes = key(memory.tried, collator, Shifted, Identical, text)?;
    show(streams, bytes.as_slice());
    Ok(())
}

// A key that a buffer writes twice.
fn writes_key(
    memory: Memory,
    streams: &mut Streams,
    collator: &Collator<RowList>,
    text: &Normal,
) -> Result<(), AllocError> {
    let mut buffer = KeyBuffer::new(memory.tried, Shifted, Identical);
    let written = write_twice(&mut buffer, collator, text);
    if written.is_ok() {
        show(streams, buffer.bytes());
    }
    drop(buffer);
    written
}

fn write_twice<A: Allocator>(
    buffer: &mut KeyBuffer<A>,
    collator: &Collator<RowList>,
    text: &Normal,
) -> Result<(), AllocError> {
    buffer.write_text(collator, text)?;
    buffer.write_text(collator, text)
}

// A writer that writes a key twice. It asks for 14 allocations: the numbers of the pages, the page of U+0000, that of
// U+0300, two for the places of each of the four levels, and for the key one of 8 bytes, of 16 and of 32.
fn writes_by_writer(
    memory: Memory,
    streams: &mut Streams,
    collator: &Collator<Trie>,
) -> Result<(), TextFault> {
    let settings = Settings {
        weighting: Shifted,
        depth: Weights,
        numbers: Numbers::AsText,
    };
    let mut writer = KeyWriter::new(memory.tried, memory.ample, *collator, settings);
    let written = write_by_writer_twice(&mut writer);
    if written.is_ok() {
        show(streams, writer.bytes());
    }
    drop(writer);
    written
}

fn write_by_writer_twice<'a, A: Allocator>(
    writer: &mut KeyWriter<'a, Trie, Global, A>,
) -> Result<(), TextFault> {
    writer.write(ACCENTED)?;
    writer.write(ACCENTED)
}

// A key that a writer writes, with all rows of a table in a trie.
fn makes_key_by_writer(
    memory: Memory,
    streams: &mut Streams,
    (table, data): (&Table, &Data),
) -> Result<String, Fail> {
    let rows = Trie::new(memory.ample, table)?;
    let collator = Collator::new(&rows, &table.header, data);
    let answer = writes_by_writer(memory, streams, &collator);
    drop(rows);
    said(memory.ample, answer)
}

// A key of elements alone.
fn makes_key_of_elements(
    memory: Memory,
    streams: &mut Streams,
    collator: &Collator<RowList>,
    text: &Normal,
) -> Result<(), AllocError> {
    let bytes = key_of(memory.tried, Shifted, collator.elements(text))?;
    show(streams, bytes.as_slice());
    Ok(())
}

// A key of a text under a table.
fn makes_key_of_text(
    memory: Memory,
    streams: &mut Streams,
    (table, data, text): (&Table, &Data, &Normal),
    name: &str,
) -> Result<(), AllocError> {
    let rows = RowList::new(table);
    let collator = Collator::new(&rows, &table.header, data);
    match name {
        "key in a buffer" => writes_key(memory, streams, &collator, text),
        "key of elements" => makes_key_of_elements(memory, streams, &collator, text),
        _ => makes_key(memory, streams, &collator, text),
    }
}

fn makes_key_with(
    memory: Memory,
    streams: &mut Streams,
    (table, data): (&Table, &Data),
    name: &str,
) -> Result<String, Fail> {
    let text = accented_text(memory.ample, data)?;
    let answer = makes_key_of_text(memory, streams, (table, data, &text), name);
    drop(text);
    said_of_memory(memory.ample, answer)
}

fn makes_key_under(
    memory: Memory,
    streams: &mut Streams,
    table: &Table,
    name: &str,
) -> Result<String, Fail> {
    let data = classes(memory.ample)?;
    let said = match name {
        "key by a writer" => makes_key_by_writer(memory, streams, (table, &data)),
        _ => makes_key_with(memory, streams, (table, &data), name),
    };
    drop(data);
    said
}

fn makes_keys(memory: Memory, streams: &mut Streams, name: &str) -> Result<String, Fail> {
    let table = contractions(memory.ample)?;
    let said = makes_key_under(memory, streams, &table, name);
    drop(table);
    said
}

fn makes_audit_of(
    memory: Memory,
    (table, data, rules): (&Table, &Data, &Rules),
    tailored: &Table,
) -> Result<String, Fail> {
    let certificate = certificate(memory.ample)?;
    let verdict = audit(memory.tried, table, data, rules, tailored, &certificate);
    drop(certificate);
    said(memory.ample, verdict)
}

fn makes_audit(memory: Memory, values: (&Table, &Data, &Rules)) -> Result<String, Fail> {
    let tailored = tailored(memory.ample)?;
    let said = makes_audit_of(memory, values, &tailored);
    drop(tailored);
    said
}

// Writes a plan.
fn show_plan<A: Allocator>(
    memory: Memory,
    streams: &mut Streams,
    (table, certificate): &(Table<A>, Certificate<A>),
) -> Result<String, Fail> {
    let _ = write_certificate(certificate, &mut streams.file);
    let _ = write_table(table, &mut streams.out);
    Ok(String::from_str(memory.ample, "done")?)
}

fn makes_plan(
    memory: Memory,
    streams: &mut Streams,
    (table, data, rules): (&Table, &Data, &Rules),
) -> Result<String, Fail> {
    match tailor(memory.tried, table, data, rules) {
        Ok(plan) => {
            let shown = show_plan(memory, streams, &plan);
            drop(plan);
            shown
        }
        Err(fault) => said::<TailorFault>(memory.ample, Err(fault)),
    }
}

fn makes_tailoring_of(
    memory: Memory,
    streams: &mut Streams,
    (table, data): (&Table, &Data),
    is_plan: bool,
) -> Result<String, Fail> {
    let rules = rules(memory.ample, data)?;
    let said = if is_plan {
        makes_plan(memory, streams, (table, data, &rules))
    } else {
        makes_audit(memory, (table, data, &rules))
    };
    drop(rules);
    said
}

fn makes_tailoring_over(
    memory: Memory,
    streams: &mut Streams,
    table: &Table,
    is_plan: bool,
) -> Result<String, Fail> {
    let data = properties(memory.ample)?;
    let said = makes_tailoring_of(memory, streams, (table, &data), is_plan);
    drop(data);
    said
}

fn makes_tailoring(memory: Memory, streams: &mut Streams, is_plan: bool) -> Result<String, Fail> {
    let table = base(memory.ample)?;
    let said = makes_tailoring_over(memory, streams, &table, is_plan);
    drop(table);
    said
}

/// A call that makes something of values.
pub fn makes(memory: Memory, streams: &mut Streams, name: &str) -> Result<String, Fail> {
    match name {
        "trie" => makes_trie(memory, streams, &contractions(memory.ample)?),
        "key list" => makes_key_positions(memory, streams, &contractions(memory.ample)?, false),
        "key map" => makes_key_positions(memory, streams, &contractions(memory.ample)?, true),
        "key" | "key in a buffer" | "key of elements" | "key by a writer" => {
            makes_keys(memory, streams, name)
        }
        "properties" => said(memory.ample, makes_properties(memory, streams)),
        "audit" => makes_tailoring(memory, streams, false),
        "plan" => makes_tailoring(memory, streams, true),
        _ => Err(Fail::new(name)),
    }
}
