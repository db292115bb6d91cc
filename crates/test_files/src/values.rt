//! Properties and implicit weights, added range by range.

use linked_list_allocator::LocalHeap;
use std::alloc::{AllocError, Allocator, Global};
use std::test::Fail;
use test_kit::{DATA, code_point, data_of, halves, holds, same, table_of, thirds};
use uca_values::{ClassRange, CodePointRange, Data, RangeFault, Table, worked_implicit_weights};
use uca_weights::{Element, Source};

/// Adds a range with a class, or to core Han, or to other Han.
fn add<A: Allocator>(
    properties: &mut Data<A>,
    kind: &str,
    (first, last): (char, char),
) -> Result<(), RangeFault> {
    match kind {
        "core" => properties.add_core(CodePointRange { first, last }),
        "other" => properties.add_other(CodePointRange { first, last }),
        _ => properties.add_class(ClassRange {
            first,
            last,
            class: 9,
        }),
    }
}

/// The kinds of ranges in order, their ends, and what is said where each is added.
const RANGES: &str = "class | 66 6A | Ok(())
class | 70 70 | Ok(())
class | 62 61 | Err(Empty)
class | 68 67 | Err(Empty)
class | 61 66 | Err(Overlap)
class | 6A 6A | Err(Overlap)
class | 67 68 | Err(Overlap)
class | 61 7A | Err(Overlap)
class | 6B 70 | Err(Overlap)
class | 6B 6F | Ok(())
class | 71 71 | Ok(())
class | 0 65 | Ok(())
core | 4E00 9FFF | Ok(())
other | 20000 20FFF | Ok(())
core | 9FFF 20000 | Err(Overlap)
other | 9FFF 20000 | Err(Overlap)
core | 20FFF 20FFF | Err(Overlap)
other | 4E00 4E00 | Err(Overlap)
core | 62 61 | Err(Empty)
other | 62 61 | Err(Empty)
class | 4E00 E000 | Ok(())";

/// The two code points of a range.
fn ends_of(text: &str) -> Result<(char, char), Fail> {
    let (first, last) = text.split_once(' ').ok_or("no last code point")?;
    Ok((code_point(first)?, code_point(last)?))
}

fn check_added<A: Allocator>(
    alloc: Global,
    properties: &mut Data<A>,
    case: &str,
) -> Result<(), Fail> {
    let (kind, ends, wanted) = thirds(case)?;
    let ends = ends_of(ends)?;
    let before = properties.classes().len();
    let added = add(properties, kind, ends);
    let is_more = properties.classes().len() > before;
    holds(is_more == (kind == "class" && added.is_ok()), case)?;
    same(&format!(in alloc; "{added:?}")?, wanted, case)
}

fn check_all_added(alloc: Global, properties: &mut Data) -> Result<(), Fail> {
    for case in RANGES.lines() {
        check_added(alloc, properties, case)?;
    }
    Ok(())
}

#[test]
fn ranges_are_added(rt: HostRuntime) -> Result<(), Fail> {
    let mut properties = Data::new(rt.alloc());
    let found = check_all_added(rt.alloc(), &mut properties);
    drop(properties);
    found
}

const WITHOUT_MEMORY: &str = "class | 61 7A | Err(Memory)
core | 61 7A | Err(Memory)
other | 61 7A | Err(Memory)";

fn check_without_memory<A: Allocator>(alloc: Global, properties: &mut Data<A>) -> Result<(), Fail> {
    for case in WITHOUT_MEMORY.lines() {
        check_added(alloc, properties, case)?;
    }
    let is_han = properties.is_core('a') || properties.is_other('a');
    holds(properties.class('a') == 0 && !is_han, "a class, or Han")
}

#[test]
fn without_memory_nothing_is_added(rt: HostRuntime) -> Result<(), Fail> {
    let heap = LocalHeap::new(rt.alloc(), 0)?;
    check_without_memory(rt.alloc(), &mut Data::new(&heap))
}

/// A code point, and its implicit elements. The ranges of FB00 are in no order, so the base of their lead is the
/// first code point of the second one.
const IMPLICIT: &str = "17000 | [.FB00.0020.0002][.8000.0000.0000]
18AFF | [.FB00.0020.0002][.9AFF.0000.0000]
18D00 | [.FB00.0020.0002][.9D00.0000.0000]
1B171 | [.FB02.0020.0002][.8001.0000.0000]
18B00 | [.FBC3.0020.0002][.8B00.0000.0000]
4E00 | [.FB40.0020.0002][.CE00.0000.0000]
9FFF | [.FB41.0020.0002][.9FFF.0000.0000]
20000 | [.FB84.0020.0002][.8000.0000.0000]
10FFFF | [.FBE1.0020.0002][.FFFF.0000.0000]
61 | [.FBC0.0020.0002][.8061.0000.0000]";

/// A header with the ranges.
const HEADER: &str = "@version 1
@implicitweights 18D00..18D8F; FB00
@implicitweights 17000..18AFF; FB00
@implicitweights 1B170..1B2FF; FB02
";

/// An element as a table writes it.
fn text_of(alloc: Global, element: Element) -> Result<String, AllocError> {
    let mark = if element.mark { '*' } else { '.' };
    format!(in alloc;
        "[{mark}{:04X}.{:04X}.{:04X}]",
        element.primary, element.secondary, element.tertiary
    )
}

/// The implicit elements of a code point.
fn implicit_text(
    alloc: Global,
    table: &Table,
    properties: &Data,
    point: char,
) -> Result<String, AllocError> {
    let mut text = String::new(alloc);
    for element in table.header.implicit(properties, point) {
        text.push_str(&text_of(alloc, element)?)?;
    }
    Ok(text)
}

fn check_implicit(alloc: Global, table: &Table, properties: &Data, case: &str) -> Result<(), Fail> {
    let (digits, wanted) = halves(case)?;
    let point = code_point(digits)?;
    same(
        &implicit_text(alloc, table, properties, point)?,
        wanted,
        case,
    )
}

fn check_all_implicit(alloc: Global, table: &Table, properties: &Data) -> Result<(), Fail> {
    for case in IMPLICIT.lines() {
        check_implicit(alloc, table, properties, case)?;
    }
    Ok(())
}

fn check_implicit_of(alloc: Global, table: &Table) -> Result<(), Fail> {
    let properties = data_of(alloc, &mut Source::new(DATA.as_bytes()))?;
    let found = check_all_implicit(alloc, table, &properties);
    drop(properties);
    found
}

#[test]
fn implicit_weights(rt: HostRuntime) -> Result<(), Fail> {
    worked_implicit_weights();
    let table = table_of(rt.alloc(), &mut Source::new(HEADER.as_bytes()))?;
    let found = check_implicit_of(rt.alloc(), &table);
    drop(table);
    found
}
