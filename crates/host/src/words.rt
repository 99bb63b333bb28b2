// An answer in one word.
ghost use Rattle.std.specs.Prelude.{◌≡◌};
ghost use Rattle.answers.specs.Answers.{answer_of};
ghost use Rattle.steps.specs.Calls.{told_of};
ghost use Rattle.host.specs.Word.{answer_word, told_word};

use answers::Refusal;

// Of a call that gives a place, a status or a live number: the number, the value, the position.
pub(crate) fn told(answer: Result<u8, Refusal>) -> u64
    ensures { result ≡ told_word (told_of answer) }
{
    match answer {
        Ok(value) => value as u64 * 256,
        Err(r) => r.number() as u64 + (r.position() as u64 % 4294967296) * 4294967296,
    }
}

// Of a call that gives no value.
pub(crate) fn done(answer: Result<(), Refusal>) -> u64
    ensures { result ≡ answer_word (answer_of answer) }
{
    told(answer.map(|()| 0))
}
