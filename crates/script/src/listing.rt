// The listing of a whole script over any memory: what its lines ask for, the answers, and the answers as text.
ghost use Rattle.std.specs.Prelude.{◌≡◌, ◌⊎◌, IfOk, string_bytes, MatchResult};
ghost use Rattle.script.specs.Lines.{lines, Cut};
ghost use Rattle.script.specs.Listing.{request_of, requests_of, form_answer, after_form, answer_of, after_request, AnswerFits, answers_of, after_all, written_from, listing_of, memory_after};

use crate::answer::{Answer, Numbered};
use crate::lines::Lines;
use forms::form::Form;
use forms::reading::read;
use memory::interface::Memory;
use std::alloc::{AllocError, Global};

// How many lines are read and answered.
pub const MOST_LINES: usize = 99_999;

// How many bytes a line may have, its line feed not counted.
pub const MOST_BYTES: usize = 80;

// The form that a line asks for, if it asks for one.
pub fn request(line: &[u8]) -> Option<Form>
    ensures value { result ≡ request_of line.now }
{
    if line.len() > MOST_BYTES {
        return None;
    }
    read(line)
}

// Carries out one form.
fn serve<M: Memory>(memory: &mut M, form: Form) -> Answer
    ensures value { result ≡ form_answer (M.meaning memory.old) form }
    ensures after { M.meaning memory.new ≡ after_form (M.meaning memory.old) form }
    ensures words_fit { AnswerFits result }
{
    match form {
        Form::Store(place, word) => memory
            .store(place, word)
            .map_or_else(Answer::Fault, |()| Answer::Done),
        Form::Load(place) => memory.load(place).map_or_else(Answer::Fault, Answer::Word),
        Form::Set(_, _)
        | Form::Get(_)
        | Form::Raise(_)
        | Form::Slot
        | Form::Serve(_)
        | Form::Stop
        | Form::Wake => Answer::NoForm,
    }
}

// Answers one line by what it asks for.
pub fn answer<M: Memory>(memory: &mut M, form: Option<Form>) -> Answer
    ensures value { result ≡ answer_of (M.meaning memory.old) form }
    ensures after { M.meaning memory.new ≡ after_request (M.meaning memory.old) form }
    ensures words_fit { AnswerFits result }
{
    // No `map_or`: of what its closure changes, the memory, nothing would be known.
    match form {
        Some(form) => serve(memory, form),
        None => Answer::NoForm,
    }
}

// What each line asks for, of as many lines as are read.
pub fn requests(heap: Global, input: &[u8]) -> Result<Vec<Option<Form>>, AllocError>
    ensures value { IfOk result (λ v. v.items ≡ requests_of input.now) }
    ensures cut { Cut input.now (lines input.now) }
{
    Lines::new(input)
        .take(MOST_LINES)
        .map(request)
        .collect(heap)
}

// Answers every line in turn. Room for all answers is had before the first call, so that want of memory leaves the memory as it was.
pub fn answer_all<M: Memory>(
    heap: Global,
    memory: &mut M,
    forms: &[Option<Form>],
) -> Result<Vec<Answer>, AllocError>
    ensures value { IfOk result (λ v. v.items ≡ answers_of (M.meaning memory.old) forms.now) }
    ensures after { MatchResult result (λ _. M.meaning memory.new ≡ after_all (M.meaning memory.old) forms.now) (λ _. M.meaning memory.new ≡ M.meaning memory.old) }
{
    let mut answers = Vec::with_capacity(heap, forms.len())?;
    for form in forms.iter().copied() {
        answers.push_reserved(answer(memory, form));
    }
    Ok(answers)
}

// The answers as text, a line for each.
pub fn written(heap: Global, answers: &[Answer]) -> Result<String, AllocError>
    ensures value { IfOk result (λ s. string_bytes s ≡ written_from 1 answers.now) }
{
    let mut text = String::new(heap);
    for (answer, line) in answers.iter().copied().zip(1..) {
        let answered = Numbered { line, answer };
        writeln!(text, "{answered}")?;
    }
    Ok(text)
}

// The listing of the script `input` over the memory, which is left as the script leaves it.
// Where memory for the listing is wanting, either no line was carried out or all were.
pub fn listing<M: Memory>(heap: Global, memory: &mut M, input: &[u8]) -> Result<String, AllocError>
    ensures value { IfOk result (λ s. string_bytes s ≡ listing_of (M.meaning memory.old) input.now) }
    ensures after { MatchResult result (λ _. M.meaning memory.new ≡ memory_after (M.meaning memory.old) input.now) (λ _. (M.meaning memory.new ≡ M.meaning memory.old) ⊎ (M.meaning memory.new ≡ memory_after (M.meaning memory.old) input.now)) }
    ensures cut { Cut input.now (lines input.now) }
{
    let forms = requests(heap, input)?;
    let answers = answer_all(heap, memory, &forms)?;
    written(heap, &answers)
}
