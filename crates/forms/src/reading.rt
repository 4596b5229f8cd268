// Reading one line of a script into a form.
ghost use Rattle.std.specs.Prelude.{◌≡◌, codes, MatchOption, IsSomeAnd};
ghost use Rattle.forms.specs.declared.form.Form.TheVariants.{Raise, Serve};
ghost use Rattle.forms.specs.Reading.{form_of, forms, bare_forms, space_of, place_of, named, names, numbered_of, register_of, store_of, load_of, set_of, get_of, number_as};
ghost use Rattle.forms.specs.Scanning.{seen, first_way, bind, skipped, last_word_of, number_of};
ghost use Rattle.forms.specs.Spelling.{Exact};

use crate::form::Form;
use crate::scan::{skip, take_last_word, take_number};
use memory::place::{Place, Space};
use registers::register::Register;

// The letter of a space.
fn take_space(s: &[u8]) -> Option<(Space, &[u8])>
    ensures value { seen result ≡ space_of s.now }
{
    let (letter, rest) = s.split_first()?;
    match char::from(*letter) {
        'x' => Some((Space::X, rest)),
        'y' => Some((Space::Y, rest)),
        'p' => Some((Space::P, rest)),
        _ => None,
    }
}

// A place, as `(x 000010)`.
fn take_place(s: &[u8]) -> Option<(Place, &[u8])>
    ensures value { seen result ≡ place_of s.now }
{
    let (space, s) = take_space(skip(s, b"(")?)?;
    let (address, s) = take_last_word(s)?;
    Some((Place { space, address }, s))
}

// The register of a name, with its number.
fn numbered(name: &[u8; 3], number: u8) -> Option<Register>
    ensures value { result ≡ named names name.now number }
{
    match name {
        b"dsr" => Some(Register::Dsr(number)),
        b"ddr" => Some(Register::Ddr(number)),
        b"dco" => Some(Register::Dco(number)),
        b"dcr" => Some(Register::Dcr(number)),
        b"dor" => Some(Register::Dor(number)),
        _ => None,
    }
}

// What follows `(` of a register that has a number.
fn take_numbered(s: &[u8]) -> Option<(Register, &[u8])>
    ensures value { seen result ≡ numbered_of s.now }
{
    let (name, s) = s.split_first_chunk::<3>()?;
    let (number, s) = take_number(skip(s, b" ")?)?;
    Some((numbered(name, number)?, s))
}

// A register, as `(dsr 0)` or `(dstr)`.
fn take_register(s: &[u8]) -> Option<(Register, &[u8])>
    ensures value { seen result ≡ register_of s.now }
{
    skip(s, b"(dstr)")
        .map(|s| (Register::Dstr, s))
        .or_else(|| take_numbered(skip(s, b"(")?))
}

// What was read, and a word after it, as the form that they make.
fn with_word<T: Copy, F: FnOnce(T, u32) -> Form>(
    read: Option<(T, &[u8])>,
    form: F,
) -> Option<(Form, &[u8])>
    requires { F.IsAlwaysCallable form }
    ensures value { MatchOption (seen read.entry) (result ≡ None) (λ a. MatchOption (last_word_of a.1) (result ≡ None) (λ w. IsSomeAnd result (λ p. F.post form a.0 w.0 p.0 × (p.1.now ≡ w.1)))) }
{
    let (value, s) = read?;
    let (word, s) = take_last_word(s)?;
    Some((form(value, word), s))
}

// What was read, and the parenthesis that closes it, as the form that it makes.
fn closed<T: Copy, F: FnOnce(T) -> Form>(read: Option<(T, &[u8])>, form: F) -> Option<(Form, &[u8])>
    requires { F.IsAlwaysCallable form }
    ensures value { MatchOption (seen read.entry) (result ≡ None) (λ a. MatchOption (skipped (codes ")") a.1) (result ≡ None) (λ rest. IsSomeAnd result (λ p. F.post form a.0 p.0 × (p.1.now ≡ rest)))) }
{
    let (value, s) = read?;
    Some((form(value), skip(s, b")")?))
}

// A number, and the parenthesis that closes it, as the form that it makes.
fn with_number<F: FnOnce(u8) -> Form>(s: &[u8], form: F) -> Option<(Form, &[u8])>
    requires { F.IsAlwaysCallable form }
    ensures value { MatchOption (number_of s.now) (result ≡ None) (λ n. IsSomeAnd result (λ p. F.post form n.0 p.0 × (p.1.now ≡ n.1))) }
{
    let (number, s) = take_number(s)?;
    Some((form(number), s))
}

// What follows `(store `.
fn take_store(s: &[u8]) -> Option<(Form, &[u8])>
    ensures value { seen result ≡ store_of s.now }
{
    with_word(take_place(s), Form::Store)
}

// What follows `(load `.
fn take_load(s: &[u8]) -> Option<(Form, &[u8])>
    ensures value { seen result ≡ load_of s.now }
{
    closed(take_place(s), Form::Load)
}

// What follows `(set `.
fn take_set(s: &[u8]) -> Option<(Form, &[u8])>
    ensures value { seen result ≡ set_of s.now }
{
    with_word(take_register(s), Form::Set)
}

// What follows `(get `.
fn take_get(s: &[u8]) -> Option<(Form, &[u8])>
    ensures value { seen result ≡ get_of s.now }
{
    closed(take_register(s), Form::Get)
}

// What follows `(raise `.
fn take_raise(s: &[u8]) -> Option<(Form, &[u8])>
    ensures value { seen result ≡ number_as Raise s.now }
{
    with_number(s, Form::Raise)
}

// What follows `(serve `.
fn take_serve(s: &[u8]) -> Option<(Form, &[u8])>
    ensures value { seen result ≡ number_as Serve s.now }
{
    with_number(s, Form::Serve)
}

// A form that is one word.
fn take_bare(s: &[u8]) -> Option<(Form, &[u8])>
    ensures value { seen result ≡ first_way bare_forms s.now }
{
    skip(s, b"(slot)")
        .map(|s| (Form::Slot, s))
        .or_else(|| Some((Form::Stop, skip(s, b"(stop)")?)))
        .or_else(|| Some((Form::Wake, skip(s, b"(wake)")?)))
}

// A form by its first word.
fn take_form(s: &[u8]) -> Option<(Form, &[u8])>
    ensures value { seen result ≡ first_way forms s.now }
{
    skip(s, b"(store ")
        .map(take_store)
        .or_else(|| skip(s, b"(load ").map(take_load))
        .or_else(|| skip(s, b"(set ").map(take_set))
        .or_else(|| skip(s, b"(get ").map(take_get))
        .or_else(|| skip(s, b"(raise ").map(take_raise))
        .or_else(|| skip(s, b"(serve ").map(take_serve))
        .unwrap_or_else(|| take_bare(s))
}

// The form that the line spells, if it spells one.
#[tactic(auto, using(crate::proofs::Forms::exact_reading, crate::proofs::Forms::ended_is), unfolding(crate::specs::Reading::form_of))]
pub fn read(line: &[u8]) -> Option<Form>
    ensures value { result ≡ form_of line.now }
    ensures exact { Exact line.now result }
{
    let (form, rest) = take_form(line)?;
    rest.is_empty().then_some(form)
}
