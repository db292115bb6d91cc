//! The runs that the lines of a certificate say, taken in turn.

ghost use Rattle.std.specs.Prelude.{◌≡◌, ◌⊎◌, ◌++◌, [], ◌∷◌, ◌+◌, ◌≤◌, ◌<◌, length, OnOk, IfOk, IfErr};
ghost use Rattle.uca_weights.specs.Runs.{AreProperRuns};
ghost use Rattle.uca_certificates.specs.declared.faults.CertificateFaultKind.{CertificateFaultKind};
ghost use Rattle.uca_certificates.specs.inside.Steps.{RefusesRuns, fault_line};

use crate::spelling::read_line;
use crate::{CERTIFICATE_FORM, Certificate, CertificateFault, CertificateFaultKind};
use std::alloc::{Allocator, Global};
use std::marker::Model;
use uca_lines::files::{FileForm, LineParser};
use uca_weights::{Level, MapFault, MapFaultKind, Run, WeightMap};

/// How many runs a level may have.
const MOST_RUNS: usize = 0xFFFF;

/// The runs of each level that the lines so far say.
#[derive(Drop)]
pub struct CertificateLines<A: Allocator = Global> {
    primary: Vec<Run, A>,
    secondary: Vec<Run, A>,
    tertiary: Vec<Run, A>,
}

impl<A: Allocator> Model for CertificateLines<A> {
    ghost use Rattle.std.specs.Prelude.{◌≤◌, length};
    ghost use Rattle.uca_certificates.specs.Certificates.{CertificateContent};

    ghost Value = { CertificateContent };

    ghost view = { λ l. record {
      primary = l.primary.items;
      secondary = l.secondary.items;
      tertiary = l.tertiary.items;
    } };

    ghost invariant = { λ l. (length l.primary.items ≤ 0xFFFF) × (length l.secondary.items ≤ 0xFFFF)
        × (length l.tertiary.items ≤ 0xFFFF) };
}

impl<A: Allocator + Copy> CertificateLines<A> {
    ghost use Rattle.std.specs.Prelude.{◌≡◌, ◌⊎◌, ◌<◌, ◌↔◌, [], length, IsTrue, OnOk, IfOk, IfErr};
    ghost use Rattle.uca_certificates.specs.declared.faults.CertificateFaultKind.{CertificateFaultKind};
    ghost use Rattle.uca_weights.specs.PerLevel.{at_level};
    ghost use Rattle.uca_certificates.specs.Certificates.{IsCertificate};
    ghost use Rattle.uca_certificates.specs.Texts.{IsPassed};
    ghost use Rattle.uca_certificates.specs.inside.Steps.{put_last, RefusesContent};

    /// Nothing is said yet. It takes no memory.
    pub fn new(alloc: A) -> CertificateLines<A>
        ensures { result ≡ record { primary = []; secondary = []; tertiary = [] } }
    {
        CertificateLines {
            primary: Vec::new(alloc),
            secondary: Vec::new(alloc),
            tertiary: Vec::new(alloc),
        }
    }

    // Whether there is a line of a higher level.
    fn is_passed(&self, level: Level) -> bool
        ensures { IsTrue result ↔ IsPassed self.now level }
    {
        match level {
            Level::One => !self.secondary.is_empty() || !self.tertiary.is_empty(),
            Level::Two => !self.tertiary.is_empty(),
            Level::Three => false,
        }
    }

    // Adds a run after the others of its level.
    fn add(&mut self, level: Level, run: Run) -> Result<(), CertificateFaultKind>
        ensures room { OnOk result (length (at_level level self.old) < 0xFFFF) }
        ensures ok { OnOk result (self.new ≡ put_last level run self.old) }
        ensures fault { IfErr result (λ kind. (kind ≡ CertificateFaultKind.Memory)
            ⊎ ((kind ≡ CertificateFaultKind.Limit) × (length (at_level level self.old) ≡ 0xFFFF))) }
    {
        match level {
            Level::One => push_run(&mut self.primary, run),
            Level::Two => push_run(&mut self.secondary, run),
            Level::Three => push_run(&mut self.tertiary, run),
        }
    }

    /// The certificate of the runs.
    ///
    /// # Errors
    ///
    /// `Map` for the lowest level whose runs make no map.
    pub fn into_certificate(self) -> Result<Certificate<A>, CertificateFault>
        ensures certificate { IfOk result (λ certificate. certificate ≡ self) }
        ensures maps { OnOk result (IsCertificate self) }
        ensures fault { IfErr result (RefusesContent self) }
    {
        let CertificateLines {
            primary,
            secondary,
            tertiary,
        } = self;
        let below_two = primary.len();
        let below_three = below_two + secondary.len();
        let all = below_three + tertiary.len();
        let primary = map_of(Level::One, primary, 0, all)?;
        let secondary = map_of(Level::Two, secondary, below_two, all)?;
        match map_of(Level::Three, tertiary, below_three, all) {
            Ok(tertiary) => Ok(Certificate {
                primary,
                secondary,
                tertiary,
            }),
            Err(fault) => Err(fault),
        }
    }
}

impl<A: Allocator + Copy> CertificateLines<A> {
    ghost use Rattle.std.specs.Prelude.{◌≡◌, ◌⊎◌, OnOk, IfErr};
    ghost use Rattle.uca_certificates.specs.Texts.{Cause};
    ghost use Rattle.uca_certificates.specs.inside.Steps.{Takes};

    // Takes the next line, without its LF.
    fn take_line(&mut self, line: &[u8]) -> Result<(), CertificateFaultKind>
        ensures ok { OnOk result (Takes self.old line.now self.new) }
        ensures fault { IfErr result (λ kind. (kind ≡ CertificateFaultKind.Memory) ⊎ Cause self.old line.now kind) }
    {
        let Some((level, run)) = read_line(line) else {
            return Err(CertificateFaultKind::Line);
        };
        if self.is_passed(level) {
            return Err(CertificateFaultKind::Order);
        }
        self.add(level, run)
    }
}

impl<A: Allocator + Copy> LineParser for CertificateLines<A> {
    ghost use Rattle.uca_certificates.specs.declared.TheConstants.{CERTIFICATE_FORM};
    ghost use Rattle.uca_certificates.specs.Texts.{Says, Cause, is_read_kind};

    type Kind = CertificateFaultKind;

    ghost form = { CERTIFICATE_FORM };

    ghost is_read = { is_read_kind };

    ghost says = { Says };

    ghost cause = { Cause };

    fn form() -> FileForm<CertificateFaultKind> {
        CERTIFICATE_FORM
    }

    fn take(&mut self, line: &[u8]) -> Result<(), CertificateFaultKind> {
        self.take_line(line)
    }
}

// Adds a run to those of a level.
fn push_run<A: Allocator>(runs: &mut Vec<Run, A>, run: Run) -> Result<(), CertificateFaultKind>
    requires { length runs.old.items ≤ 0xFFFF }
    ensures room { OnOk result (length runs.old.items < 0xFFFF) }
    ensures ok { OnOk result (runs.new.items ≡ runs.old.items ++ run ∷ []) }
    ensures fault { IfErr result (λ kind. (kind ≡ CertificateFaultKind.Memory)
        ⊎ ((kind ≡ CertificateFaultKind.Limit) × (length runs.old.items ≡ 0xFFFF))) }
    ensures few { length runs.new.items ≤ 0xFFFF }
{
    if runs.len() >= MOST_RUNS {
        return Err(CertificateFaultKind::Limit);
    }
    runs.push(run)?;
    Ok(())
}

// The map of a level's runs. The file has `all` runs, `below` of them at lower levels: they give an error its line.
fn map_of<A: Allocator>(
    level: Level,
    runs: Vec<Run, A>,
    below: usize,
    all: usize,
) -> Result<WeightMap<A>, CertificateFault>
    requires within { below + length runs.items ≤ all }
    requires few { all ≤ 0x10_0000 }
    ensures map { IfOk result (λ map. map ≡ record { level = level; runs = runs.items }) }
    ensures proper { OnOk result (AreProperRuns level runs.items) }
    ensures fault { IfErr result (RefusesRuns level runs.items below all) }
{
    match WeightMap::from_runs(level, runs) {
        Ok(map) => Ok(map),
        Err(fault) => Err(CertificateFault {
            line: line_of(fault, below, all),
            kind: CertificateFaultKind::Map(fault),
        }),
    }
}

// The line of an error in a level's runs. The file has `all` runs, `below` of them at lower levels.
fn line_of(fault: MapFault, below: usize, all: usize) -> u32
    requires within { below + fault.run ≤ all }
    requires few { all ≤ 0x10_0000 }
    ensures { result ≡ fault_line below all fault.run fault.kind }
{
    let before = match fault.kind {
        MapFaultKind::Fixed => all,
        MapFaultKind::Empty | MapFaultKind::NotRising | MapFaultKind::OutOfRange => below
            + fault.run,
    };
    before as u32 + 1
}
