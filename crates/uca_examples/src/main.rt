//! Five short programs that use the library, and what they print. `docs/LIBRARY.md` explains each.
#![tactic(auto)]

mod failure;
mod key_of_text;
mod own_lookup;
mod samples;
mod sorted_list;
mod stored_keys;
mod tailored_table;

use failure::Failure;
use key_of_text::key_of_text;
use own_lookup::key_by_letters;
use sorted_list::sorted_list;
use std::alloc::{AllocError, Global};
use std::cmp::Ordering;
use stored_keys::compare_stored;
use tailored_table::{order_under, tailored_table};
use uca_collation::{Data, Table};

fn main(rt: HostRuntime) -> Result<(), Failure> {
    let table = samples::table(rt.alloc())?;
    let data = samples::data(rt.alloc())?;
    print_all(&rt, &table, &data)
}

// What each program makes, in turn.
fn print_all(rt: &HostRuntime, table: &Table, data: &Data) -> Result<(), Failure> {
    print_keys(rt, table, data)?;
    print_list(rt, table, data)?;
    print_orders(rt, table, data)?;
    let key = key_by_letters(rt.alloc(), &table.header, data, "cab")?;
    print_key(rt, "lookup", &key)
}

// A key, and how it compares with another.
fn print_keys(rt: &HostRuntime, table: &Table, data: &Data) -> Result<(), Failure> {
    let left = key_of_text(rt.alloc(), table, data, "\u{E1} b")?;
    let right = key_of_text(rt.alloc(), table, data, "A b")?;
    print_key(rt, "key", &left)?;
    let (order, level) = compare_stored(&left, &right);
    println!(rt; "stored: {} {level}", sign(order))?;
    Ok(())
}

// A list, one word a line.
fn print_list(rt: &HostRuntime, table: &Table, data: &Data) -> Result<(), Failure> {
    let texts = ["c", "\u{E1}", "ba", "A", "b a", "a"];
    for word in &sorted_list(rt.alloc(), table, data, &texts)? {
        println!(rt; "sorted: {}", word.text)?;
    }
    Ok(())
}

// The order of á and two letters, under the base and under the table that rules make of it.
fn print_orders(rt: &HostRuntime, base: &Table, data: &Data) -> Result<(), Failure> {
    print_order(rt, "base", base, data)?;
    let tailored = tailored_table(rt.alloc(), base, data)?;
    print_order(rt, "tailored", &tailored, data)
}

// The order of á and two letters under a table.
fn print_order(rt: &HostRuntime, name: &str, table: &Table, data: &Data) -> Result<(), Failure> {
    let first = order_under(rt.alloc(), table, data, "\u{E1}", "b")?;
    let second = order_under(rt.alloc(), table, data, "\u{E1}", "c")?;
    println!(rt; "{name}: á {} b, á {} c", sign(first), sign(second))?;
    Ok(())
}

// A key in hexadecimal digits.
fn print_key(rt: &HostRuntime, name: &str, key: &[u8]) -> Result<(), Failure> {
    println!(rt; "{name}: {}", digits(rt.alloc(), key)?)?;
    Ok(())
}

// The sign of an order.
fn sign(order: Ordering) -> &'static str {
    match order {
        Ordering::Less => "<",
        Ordering::Equal => "=",
        Ordering::Greater => ">",
    }
}

// Bytes in hexadecimal digits, two bytes a group.
fn digits(alloc: Global, bytes: &[u8]) -> Result<String, AllocError> {
    let mut text = String::new(alloc);
    for (i, byte) in bytes.iter().enumerate() {
        if i > 0 && i % 2 == 0 {
            text.push_str(" ")?;
        }
        text.push_str(&format!(in alloc; "{byte:02X}")?)?;
    }
    Ok(text)
}
