//! The table and the certificate of a plan.

ghost use Rattle.std.specs.Prelude.{◌≡◌, ◌⊎◌, map, true, false, IfOk, IfErr, Ok, Err};
ghost use Rattle.std.specs.List.{AllByRecursion};
ghost use Rattle.uca_weights.specs.Runs.{AreProperRuns};
ghost use Rattle.uca_values.specs.Content.{IsTable, properties_of};
ghost use Rattle.uca_check.specs.WellFormed.{IsWellFormed, elements_of};
ghost use Rattle.uca_certificates.specs.Certificates.{IsCertificate};
ghost use Rattle.uca_plans.specs.Lists as lists;
ghost use Rattle.uca_plans.specs.Lists.{InsertsBelow};
ghost use Rattle.uca_plans.specs.Plans as plans;
ghost use Rattle.uca_plans.specs.Plans.{plan_drafted, plan_of};
ghost use Rattle.uca_plans.specs.Tailors.{out_of_memory, plan_in, table_of};
ghost use Rattle.uca_tailor.specs.inside.RowDrafts.{row_elements};
ghost use Rattle.uca_tailor.specs.inside.PlanParts as parts;
ghost use Rattle.uca_tailor.specs.inside.PlanParts.{AreSound, IsMade, IsNotMade};

use crate::drafts::{Drafting, RowDraft, RowElements, as_draft, draft};
use crate::numbers::{LevelNumbers, level_numbers};
use std::alloc::{AllocError, Allocator};
use std::marker::Model;
use uca_certificates::Certificate;
use uca_plans::{DraftElement, Insertion, TailorFault, TailorKind};
use uca_relations::Rules;
use uca_values::{Data, Header, Row, Table};
use uca_weights::{Element, Level, Run, WeightMap};

/// The table and the certificate of the plan of some rules over a well-formed base.
///
/// # Errors
///
/// Why there is no plan, or an allocation that fails.
pub(crate) fn plan<A: Allocator + Copy, T: Allocator>(
    alloc: A,
    base: &Table<T>,
    properties: &Data<T>,
    rules: &Rules<T>,
) -> Result<(Table<A>, Certificate<A>), TailorFault>
    requires { IsWellFormed (properties_of properties.now).class base.now.rows }
    ensures made { IfOk result (λ answer. IsMade base.now (properties_of properties.now) rules.now answer.0 answer.1) }
    ensures not_made { IfErr result (IsNotMade base.now (properties_of properties.now) rules.now) }
{
    let drafting = draft(alloc, base, properties, rules)?;
    plan_of_drafts(alloc, base, &drafting, rules.relations().len())
}

/// The table and the certificate of some drafts.
fn plan_of_drafts<A: Allocator + Copy, T: Allocator>(
    alloc: A,
    base: &Table<T>,
    drafting: &Drafting<A>,
    relations: usize,
) -> Result<(Table<A>, Certificate<A>), TailorFault>
    requires names { AllByRecursion (InsertsBelow relations) drafting.now.insertions }
    requires sound { AreSound base.now drafting.now }
    ensures made { IfOk result (λ answer. (answer.0.header ≡ base.now.header)
        × (plan_drafted (elements_of base.now.rows) (Ok drafting.now) ≡ Ok (plan_in answer.0 answer.1))) }
    ensures not_made { IfErr result (λ fault.
        (plan_drafted (elements_of base.now.rows) (Ok drafting.now) ≡ Err fault) ⊎ (fault ≡ out_of_memory)) }
{
    let numbers = number_levels(alloc, base, drafting, relations)?;
    numbered_plan(alloc, base, drafting, &numbers)
}

/// The table and the certificate of numbers.
fn numbered_plan<A: Allocator + Copy, T: Allocator>(
    alloc: A,
    base: &Table<T>,
    drafting: &Drafting<A>,
    numbers: &Numbers<A>,
) -> Result<(Table<A>, Certificate<A>), TailorFault>
    requires table { IsTable base.now → IsTable (table_of base.now (plan_of drafting.now.rows numbers.now)) }
    requires certificate { IsCertificate (parts.certificate_by numbers.now) }
    ensures made { IfOk result (λ answer. (answer.0 ≡ table_of base.now (plan_of drafting.now.rows numbers.now))
        × (answer.1 ≡ parts.certificate_by numbers.now)) }
    ensures not_made { IfErr result (λ fault. fault ≡ out_of_memory) }
{
    let table = number_table(alloc, base, drafting, numbers)?;
    let certificate = certificate_by(alloc, numbers)?;
    Ok((table, certificate))
}

/// The numbers of the weights of all levels.
#[derive(Drop)]
struct Numbers<A: Allocator> {
    primary: LevelNumbers<A>,
    secondary: LevelNumbers<A>,
    tertiary: LevelNumbers<A>,
}

impl<A: Allocator> Model for Numbers<A> {
    ghost use Rattle.uca_plans.specs.Plans as plans;

    ghost Value = { plans.LevelPlans };

    ghost view = { λ n. record { primary = n.primary; secondary = n.secondary; tertiary = n.tertiary } };
}

/// The numbers of the weights of all levels. If a level has no room, the error names the lowest such level.
fn number_levels<A: Allocator + Copy, T: Allocator>(
    alloc: A,
    base: &Table<T>,
    drafting: &Drafting<A>,
    relations: usize,
) -> Result<Numbers<A>, TailorFault>
    requires { AllByRecursion (InsertsBelow relations) drafting.now.insertions }
    ensures numbers { IfOk result (λ numbers.
        plan_drafted (elements_of base.now.rows) (Ok drafting.now) ≡ Ok (plan_of drafting.now.rows numbers)) }
    ensures none { IfErr result (λ fault.
        (plan_drafted (elements_of base.now.rows) (Ok drafting.now) ≡ Err fault) ⊎ (fault ≡ out_of_memory)) }
{
    let rows: &[Row<T>] = &base.rows;
    let insertions = drafting.insertions();
    let primary = number_level(alloc, Level::One, rows, insertions, relations)?;
    match number_level(alloc, Level::Two, rows, insertions, relations) {
        Ok(secondary) => {
            match number_level(alloc, Level::Three, rows, insertions, relations) {
                Ok(tertiary) => Ok(Numbers {
                    primary,
                    secondary,
                    tertiary,
                }),
                Err(fault) => {
                    drop(secondary);
                    drop(primary);
                    Err(fault)
                }
            }
        }
        Err(fault) => {
            drop(primary);
            Err(fault)
        }
    }
}

/// The numbers of the weights of a level that has room.
fn number_level<A: Allocator + Copy, T: Allocator>(
    alloc: A,
    level: Level,
    base: &[Row<T>],
    insertions: &[Insertion],
    relations: usize,
) -> Result<LevelNumbers<A>, TailorFault>
    requires { AllByRecursion (InsertsBelow relations) insertions.now }
    ensures room { IfOk result (λ numbers.
        (lists.level_has_room level (lists.members_of level (elements_of base.now) insertions.now) ≡ true)
        × (numbers ≡ plans.level_plan level (elements_of base.now) insertions.now)) }
    ensures none { IfErr result (λ fault.
        ((lists.level_has_room level (lists.members_of level (elements_of base.now) insertions.now) ≡ false) × (fault ≡ plans.no_room level))
        ⊎ (fault ≡ out_of_memory)) }
{
    match level_numbers(alloc, level, base, insertions, relations)? {
        Some(numbers) => Ok(numbers),
        None => Err(TailorFault {
            kind: TailorKind::NoRoom(level),
            relation: 0,
        }),
    }
}

/// The base's header, and the rows with their weights numbered.
fn number_table<A: Allocator + Copy, T: Allocator>(
    alloc: A,
    base: &Table<T>,
    drafting: &Drafting<A>,
    numbers: &Numbers<A>,
) -> Result<Table<A>, AllocError>
    requires { IsTable base.now → IsTable (table_of base.now (plan_of drafting.now.rows numbers.now)) }
    ensures { IfOk result (λ table. table ≡ table_of base.now (plan_of drafting.now.rows numbers.now)) }
{
    let header = copy_header(alloc, &base.header)?;
    let rows = number_rows(alloc, numbers, drafting.rows())?;
    Ok(Table { header, rows })
}

/// A copy of the header.
fn copy_header<A: Allocator + Copy, T: Allocator>(
    alloc: A,
    header: &Header<T>,
) -> Result<Header<A>, AllocError>
    ensures { IfOk result (λ copy. copy ≡ header.now) }
{
    Ok(Header {
        version: String::from_str(alloc, &header.version)?,
        setting: header.setting,
        ranges: Vec::from_slice(alloc, &header.ranges)?,
    })
}

/// The rows with their weights numbered, in their order.
fn number_rows<A: Allocator + Copy>(
    alloc: A,
    numbers: &Numbers<A>,
    rows: &[RowDraft<A>],
) -> Result<Vec<Row<A>, A>, AllocError>
    ensures { IfOk result (λ numbered. numbered.items ≡ map (plans.numbered_row numbers.now) rows.now) }
{
    let mut numbered = Vec::with_capacity(alloc, rows.len())?;
    for row in rows {
        numbered.push(number_row(alloc, numbers, row)?)?;
    }
    Ok(numbered)
}

/// A row with its weights numbered.
fn number_row<A: Allocator + Copy>(
    alloc: A,
    numbers: &Numbers<A>,
    row: &RowDraft<A>,
) -> Result<Row<A>, AllocError>
    ensures { IfOk result (λ numbered. numbered ≡ plans.numbered_row numbers.now row.now) }
{
    let elements = number_elements(alloc, numbers, row.elements())?;
    let key = Vec::from_slice(alloc, row.key())?;
    Ok(Row { key, elements })
}

/// Elements with their weights numbered, in their order.
fn number_elements<A: Allocator>(
    alloc: A,
    numbers: &Numbers<A>,
    elements: &RowElements<A>,
) -> Result<Vec<Element, A>, AllocError>
    ensures { IfOk result (λ numbered. numbered.items ≡ map (plans.numbered numbers.now) (row_elements elements.now)) }
{
    match elements {
        RowElements::Base(own) => {
            let mut numbered = Vec::with_capacity(alloc, own.len())?;
            for element in *own {
                numbered.push(number_element(numbers, as_draft(false, *element)))?;
            }
            Ok(numbered)
        }
        RowElements::Target(own) => {
            let mut numbered = Vec::with_capacity(alloc, own.len())?;
            for drafted in own {
                numbered.push(number_element(numbers, *drafted))?;
            }
            Ok(numbered)
        }
    }
}

/// An element with its weights numbered.
fn number_element<A: Allocator>(numbers: &Numbers<A>, element: DraftElement) -> Element
    ensures { result ≡ plans.numbered numbers.now element }
{
    Element {
        primary: numbers.primary.number(Level::One, element.primary),
        secondary: numbers.secondary.number(Level::Two, element.secondary),
        tertiary: numbers.tertiary.number(Level::Three, element.tertiary),
        mark: element.mark,
    }
}

/// The images of the base's weights.
fn certificate_by<A: Allocator + Copy>(
    alloc: A,
    numbers: &Numbers<A>,
) -> Result<Certificate<A>, AllocError>
    requires { IsCertificate (parts.certificate_by numbers.now) }
    ensures { IfOk result (λ certificate. certificate ≡ parts.certificate_by numbers.now) }
{
    Ok(Certificate {
        primary: map_of(Level::One, numbers.primary.runs(alloc)?),
        secondary: map_of(Level::Two, numbers.secondary.runs(alloc)?),
        tertiary: map_of(Level::Three, numbers.tertiary.runs(alloc)?),
    })
}

/// The map of proper runs.
fn map_of<A: Allocator>(level: Level, runs: Vec<Run, A>) -> WeightMap<A>
    requires { AreProperRuns level runs.items }
    ensures { result ≡ record { level = level; runs = runs.items } }
{
    match WeightMap::from_runs(level, runs) {
        Ok(map) => map,
        Err(_) => unreachable!(),
    }
}
