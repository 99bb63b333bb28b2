// The sheets that the library writes.
#![tactic(auto)]

mod building;

ghost use Rattle.std.specs.Prelude.{◌≡◌, length};
ghost use Rattle.answers.specs.Answers.{answer_of};
ghost use Rattle.builder.specs.Build.{build_answer, out_after};

use answers::Refusal;
use building::Numbers;

// Writes the sheet for these numbers; bytes past it keep their content, and a refusal changes nothing.
pub fn build(kind: u32, bound: u32, parties: u32, out: &mut [u8]) -> Result<(), Refusal>
    ensures result_value { answer_of result ≡ build_answer kind bound parties (length out.old) }
    ensures out_after { out.new ≡ out_after kind bound parties out.old }
{
    let numbers = Numbers::new(kind, bound, parties).ok_or(Refusal::Header)?;
    if !numbers.is_given() {
        return Err(Refusal::NoSheet);
    }
    if out.len() < numbers.sheet_length() {
        return Err(Refusal::Output);
    }
    numbers.put_sheet(out);
    Ok(())
}
