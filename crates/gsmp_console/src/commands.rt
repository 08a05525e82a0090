//! What the words behind a first word say.

ghost use Rattle.std.specs.Prelude.{◌≡◌, IfOk};
ghost use Rattle.lab_text.specs.Words.{words};
ghost use Rattle.console_model.specs.Law.{IsEnd};
ghost use Rattle.console_model.specs.Lines.{add_says, clear_says, input_says, move_says, ports_says, restart_says, run_says, said, side_says};
ghost use Rattle.gsmp_console.specs.Script.{IsSayable, ok_as};

use crate::forms::{GREATEST_PORT, end_of, number, port, side_of};
use crate::words::{four_words, one_word, six_words, two_words};
use console_model::{ConsoleEvent, ConsoleFault, ConsoleLine, Keyword, Side};
use lab_text::split_word;
use net_types::End;

/// The most rounds of a line, and of all lines.
pub(crate) const ROUNDS: u32 = 100_000;

/// `ports N`
fn ports_says(rest: &[u8]) -> Result<ConsoleLine, ConsoleFault>
    ensures said { result ≡ ports_says (words rest.now) }
    ensures sayable { IfOk result IsSayable }
{
    let Some(word) = one_word(rest) else {
        return Err(ConsoleFault::Arity);
    };
    let ports = number(word, 1, GREATEST_PORT)?;
    Ok(ConsoleLine::Ports(ports as u8))
}

/// `add P V Q W`
fn add_says(rest: &[u8]) -> Result<ConsoleLine, ConsoleFault>
    ensures said { result ≡ add_says (words rest.now) }
    ensures sayable { IfOk result IsSayable }
{
    let Some((port, vci, to_port, to_vci)) = four_words(rest) else {
        return Err(ConsoleFault::Arity);
    };
    let input = end_of(port, vci)?;
    let output = end_of(to_port, to_vci)?;
    Ok(ConsoleLine::Event(ConsoleEvent::Add { input, output }))
}

/// `move P V Q W R X`
fn move_says(rest: &[u8]) -> Result<ConsoleLine, ConsoleFault>
    ensures said { result ≡ move_says (words rest.now) }
    ensures sayable { IfOk result IsSayable }
{
    let Some((port, vci, from_port, from_vci, to_port, to_vci)) = six_words(rest) else {
        return Err(ConsoleFault::Arity);
    };
    let input = end_of(port, vci)?;
    let from = end_of(from_port, from_vci)?;
    let to = end_of(to_port, to_vci)?;
    Ok(ConsoleLine::Event(ConsoleEvent::Move { input, from, to }))
}

/// The input of `delete P V` and `verify P V`
fn input_of(rest: &[u8]) -> Result<End, ConsoleFault>
    ensures delete { ok_as (λ input. ConsoleLine.Event (ConsoleEvent.Delete input)) result ≡ input_says ConsoleEvent.Delete (words rest.now) }
    ensures verify { ok_as (λ input. ConsoleLine.Event (ConsoleEvent.Verify input)) result ≡ input_says ConsoleEvent.Verify (words rest.now) }
    ensures within { IfOk result IsEnd }
{
    let Some((port, vci)) = two_words(rest) else {
        return Err(ConsoleFault::Arity);
    };
    end_of(port, vci)
}

/// `clear P`
fn clear_says(rest: &[u8]) -> Result<ConsoleLine, ConsoleFault>
    ensures said { result ≡ clear_says (words rest.now) }
    ensures sayable { IfOk result IsSayable }
{
    let Some(word) = one_word(rest) else {
        return Err(ConsoleFault::Arity);
    };
    let port = port(word)?;
    Ok(ConsoleLine::Event(ConsoleEvent::Clear { port }))
}

/// The side of `carry D`, `lose D` and `tick D`
fn one_side(rest: &[u8]) -> Result<Side, ConsoleFault>
    ensures carry { ok_as (λ side. ConsoleLine.Event (ConsoleEvent.Carry side)) result ≡ side_says ConsoleEvent.Carry (words rest.now) }
    ensures lose { ok_as (λ side. ConsoleLine.Event (ConsoleEvent.Lose side)) result ≡ side_says ConsoleEvent.Lose (words rest.now) }
    ensures tick { ok_as (λ side. ConsoleLine.Event (ConsoleEvent.Tick side)) result ≡ side_says ConsoleEvent.Tick (words rest.now) }
{
    let Some(word) = one_word(rest) else {
        return Err(ConsoleFault::Arity);
    };
    side_of(word)
}

/// `restart`
fn restart_says(rest: &[u8]) -> Result<ConsoleLine, ConsoleFault>
    ensures said { result ≡ restart_says (words rest.now) }
    ensures sayable { IfOk result IsSayable }
{
    match split_word(rest) {
        None => Ok(ConsoleLine::Event(ConsoleEvent::Restart)),
        Some(_) => Err(ConsoleFault::Arity),
    }
}

/// `run N`
fn run_says(rest: &[u8]) -> Result<ConsoleLine, ConsoleFault>
    ensures said { result ≡ run_says (words rest.now) }
    ensures sayable { IfOk result IsSayable }
{
    let Some(word) = one_word(rest) else {
        return Err(ConsoleFault::Arity);
    };
    let rounds = number(word, 1, ROUNDS)?;
    Ok(ConsoleLine::Run(rounds))
}

/// What the words behind a first word say. Refuses `Arity`, and then what the forms of the words refuse,
/// from left to right.
pub(crate) fn said(keyword: Keyword, rest: &[u8]) -> Result<ConsoleLine, ConsoleFault>
    ensures said { result ≡ said keyword (words rest.now) }
    ensures sayable { IfOk result IsSayable }
{
    match keyword {
        Keyword::Ports => ports_says(rest),
        Keyword::Add => add_says(rest),
        Keyword::Move => move_says(rest),
        Keyword::Delete => {
            let input = input_of(rest)?;
            Ok(ConsoleLine::Event(ConsoleEvent::Delete { input }))
        }
        Keyword::Clear => clear_says(rest),
        Keyword::Verify => {
            let input = input_of(rest)?;
            Ok(ConsoleLine::Event(ConsoleEvent::Verify { input }))
        }
        Keyword::Carry => {
            let side = one_side(rest)?;
            Ok(ConsoleLine::Event(ConsoleEvent::Carry(side)))
        }
        Keyword::Lose => {
            let side = one_side(rest)?;
            Ok(ConsoleLine::Event(ConsoleEvent::Lose(side)))
        }
        Keyword::Tick => {
            let side = one_side(rest)?;
            Ok(ConsoleLine::Event(ConsoleEvent::Tick(side)))
        }
        Keyword::Restart => restart_says(rest),
        Keyword::Run => run_says(rest),
    }
}
