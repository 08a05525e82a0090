//! The lines of events, behind their first words.

ghost use Rattle.std.specs.Prelude.{◌≡◌, IfOk};
ghost use Rattle.lab_text.specs.Words.{words};
ghost use Rattle.script_model.specs.declared.keyword.Keyword.TheVariants as word;
ghost use Rattle.script_model.specs.Grammar.{Carries, Loses, TicksSwitch, Restarts, RestartsSwitch};
ghost use Rattle.script_words.specs.Faults.{ok_as};
ghost use Rattle.script_words.specs.Told.{told, side_told, said_alike, HasNumbers};

use crate::forms::{
    read_digits, read_name, read_name_or_all, read_number_in, read_payload_digits, read_prefix,
};
use crate::places::{read_channel, read_queue};
use crate::routes::{Way, way_of};
use crate::said::{Said, Side};
use script_model::LineRefusal;
use word_forms::{one_word, three_words, two_words};

/// The most rounds of a script.
pub const ROUNDS: u32 = 100_000;

/// `send NAME OCTETS`
pub fn send_line<'a>(rest: &'a [u8]) -> Result<Said<'a>, LineRefusal>
    ensures said { ok_as told result ≡ said_alike word.Send (words rest.now) }
    ensures numbers { IfOk result HasNumbers }
{
    let Some((name, digits)) = two_words(rest) else {
        return Err(LineRefusal::Arity);
    };
    let name = read_name(name)?;
    let digits = read_digits(digits)?;
    Ok(Said::Sends { name, digits })
}

/// The one word of `carry QUEUE` and `lose QUEUE`
fn queue_word(rest: &[u8]) -> Result<(&[u8], Side), LineRefusal>
    ensures carry { ok_as (λ queue. Carries queue.0.now (side_told queue.1)) result ≡ said_alike word.Carry (words rest.now) }
    ensures lose { ok_as (λ queue. Loses queue.0.now (side_told queue.1)) result ≡ said_alike word.Lose (words rest.now) }
{
    let Some(queue) = one_word(rest) else {
        return Err(LineRefusal::Arity);
    };
    read_queue(queue)
}

/// `carry QUEUE`
pub fn carry_line<'a>(rest: &'a [u8]) -> Result<Said<'a>, LineRefusal>
    ensures said { ok_as told result ≡ said_alike word.Carry (words rest.now) }
    ensures numbers { IfOk result HasNumbers }
{
    let (name, side) = queue_word(rest)?;
    Ok(Said::Carries { name, side })
}

/// `lose QUEUE`
pub fn lose_line<'a>(rest: &'a [u8]) -> Result<Said<'a>, LineRefusal>
    ensures said { ok_as told result ≡ said_alike word.Lose (words rest.now) }
    ensures numbers { IfOk result HasNumbers }
{
    let (name, side) = queue_word(rest)?;
    Ok(Said::Loses { name, side })
}

/// `tick NAME` or `tick *`
pub fn tick_line<'a>(rest: &'a [u8]) -> Result<Said<'a>, LineRefusal>
    ensures said { ok_as told result ≡ said_alike word.Tick (words rest.now) }
    ensures numbers { IfOk result HasNumbers }
{
    let Some(name) = one_word(rest) else {
        return Err(LineRefusal::Arity);
    };
    match read_name_or_all(name)? {
        Some(name) => Ok(Said::Ticks { name }),
        None => Ok(Said::TicksAll),
    }
}

/// The one word of `tickswitch NAME`, `restart NAME` and `restartswitch NAME`
fn name_word(rest: &[u8]) -> Result<&[u8], LineRefusal>
    ensures tick { ok_as (λ name. TicksSwitch name.now) result ≡ said_alike word.TickSwitch (words rest.now) }
    ensures restart { ok_as (λ name. Restarts name.now) result ≡ said_alike word.Restart (words rest.now) }
    ensures restart_switch { ok_as (λ name. RestartsSwitch name.now) result ≡ said_alike word.RestartSwitch (words rest.now) }
{
    let Some(name) = one_word(rest) else {
        return Err(LineRefusal::Arity);
    };
    read_name(name)
}

/// `tickswitch NAME`
pub fn tick_switch_line<'a>(rest: &'a [u8]) -> Result<Said<'a>, LineRefusal>
    ensures said { ok_as told result ≡ said_alike word.TickSwitch (words rest.now) }
    ensures numbers { IfOk result HasNumbers }
{
    let name = name_word(rest)?;
    Ok(Said::TicksSwitch { name })
}

/// `restart NAME`
pub fn restart_line<'a>(rest: &'a [u8]) -> Result<Said<'a>, LineRefusal>
    ensures said { ok_as told result ≡ said_alike word.Restart (words rest.now) }
    ensures numbers { IfOk result HasNumbers }
{
    let name = name_word(rest)?;
    Ok(Said::Restarts { name })
}

/// `restartswitch NAME`
pub fn restart_switch_line<'a>(rest: &'a [u8]) -> Result<Said<'a>, LineRefusal>
    ensures said { ok_as told result ≡ said_alike word.RestartSwitch (words rest.now) }
    ensures numbers { IfOk result HasNumbers }
{
    let name = name_word(rest)?;
    Ok(Said::RestartsSwitch { name })
}

/// `run ROUNDS`
pub fn run_line<'a>(rest: &'a [u8]) -> Result<Said<'a>, LineRefusal>
    ensures said { ok_as told result ≡ said_alike word.Run (words rest.now) }
    ensures numbers { IfOk result HasNumbers }
{
    let Some(rounds) = one_word(rest) else {
        return Err(LineRefusal::Arity);
    };
    let rounds = read_number_in(rounds, 1, ROUNDS)?;
    Ok(Said::Runs { rounds })
}

/// `forge QUEUE CHANNEL PAYLOAD`
pub fn forge_line<'a>(rest: &'a [u8]) -> Result<Said<'a>, LineRefusal>
    ensures said { ok_as told result ≡ said_alike word.Forge (words rest.now) }
    ensures numbers { IfOk result HasNumbers }
{
    let Some((queue, channel, digits)) = three_words(rest) else {
        return Err(LineRefusal::Arity);
    };
    let (name, side) = read_queue(queue)?;
    let channel = read_channel(channel)?;
    let digits = read_payload_digits(digits)?;
    Ok(Said::Forges {
        name,
        side,
        channel,
        digits,
    })
}

/// `setroute NAME PREFIX via PORT` or `setroute NAME PREFIX local`
pub fn set_route_line<'a>(rest: &'a [u8]) -> Result<Said<'a>, LineRefusal>
    ensures said { ok_as told result ≡ said_alike word.SetRoute (words rest.now) }
    ensures numbers { IfOk result HasNumbers }
{
    match way_of(rest) {
        Ok(Way { name, prefix, next }) => Ok(Said::Routes {
            name,
            prefix,
            next: Some(next),
        }),
        Err(refusal) => Err(refusal),
    }
}

/// `unroute NAME PREFIX`
pub fn unroute_line<'a>(rest: &'a [u8]) -> Result<Said<'a>, LineRefusal>
    ensures said { ok_as told result ≡ said_alike word.Unroute (words rest.now) }
    ensures numbers { IfOk result HasNumbers }
{
    let Some((name, prefix)) = two_words(rest) else {
        return Err(LineRefusal::Arity);
    };
    let name = read_name(name)?;
    let prefix = read_prefix(prefix)?;
    Ok(Said::Routes {
        name,
        prefix,
        next: None,
    })
}
