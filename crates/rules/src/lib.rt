// The rules of a layout sheet, and its check.
#![tactic(auto)]

mod shape;
mod writers;

ghost use Rattle.std.specs.Prelude.{◌≡◌};
ghost use Rattle.answers.specs.Answers.{answer_of, done};
ghost use Rattle.rules.specs.Check.{unless_unfit, check_answer};

use answers::Refusal;
pub use shape::numbers_ok;
use sheet::sizes::{HEADER_LENGTH, VERSION, VERSION_AT};

// Whether a sheet keeps all rules but the writer rule: the first that fails, in document 01's order.
fn fits(sheet: &[u8]) -> Result<(), Refusal>
    ensures { answer_of result ≡ unless_unfit sheet.now done }
{
    if sheet.len() < HEADER_LENGTH {
        return Err(Refusal::Short);
    }
    if sheet[VERSION_AT] != VERSION {
        return Err(Refusal::Version);
    }
    if !shape::header_ok(sheet) {
        return Err(Refusal::Header);
    }
    if !shape::length_ok(sheet) {
        return Err(Refusal::Length);
    }
    if let Some(misfit) = shape::first_bad_row(sheet) {
        return Err(Refusal::Row(misfit));
    }
    Ok(())
}

// Whether a sheet is accepted: the first rule that fails, in document 01's order.
pub fn check(sheet: &[u8]) -> Result<(), Refusal>
    ensures { answer_of result ≡ check_answer sheet.now }
{
    fits(sheet)?;
    if let Some(clash) = writers::first_bad_writer(sheet) {
        return Err(Refusal::Writer(clash));
    }
    Ok(())
}
