//! The forms of words that name a port, a queue or a channel.

ghost use Rattle.std.specs.Prelude.{◌≡◌, IfSome, IfOk, IsTrue, true};
ghost use Rattle.std.specs.Option.{option_map};
ghost use Rattle.net_types.specs.Label.{is_label_number};
ghost use Rattle.script_model.specs.Forms.{EndWord, QueueWord, ChannelWord, LabelWord, read, port_of, end_of, side_of, queue_of, channel_of, label_of};
ghost use Rattle.script_model.specs.world_model.Conditions.{IsPort};
ghost use Rattle.script_words.specs.Faults.{ok_as};
ghost use Rattle.script_words.specs.Told.{side_told};

use crate::forms::is_name;
use crate::said::Side;
use net_types::{CONTROL_PORT, Channel, LAST_PORT, PortNo, label_number};
use script_model::LineRefusal;
use word_forms::{number_in, split_at_sign};

fn port_of(word: &[u8]) -> Option<PortNo>
    ensures port { result ≡ port_of word.now }
    ensures within { IfSome result (λ port. IsPort port) }
{
    let port = number_in(word, 1, LAST_PORT as u32)?;
    Some(PortNo(port as u8))
}

fn end_of(word: &[u8]) -> Option<(&[u8], PortNo)>
    ensures end { option_map (λ end. (end.0.now, end.1)) result ≡ end_of word.now }
    ensures within { IfSome result (λ end. IsPort end.1) }
{
    let (name, port) = split_at_sign(word, b':')?;
    if !is_name(name) {
        return None;
    }
    let port = port_of(port)?;
    Some((name, port))
}

/// A name, a colon and a port 1 to 8. Refuses `BadPlace`.
pub fn read_end(word: &[u8]) -> Result<(&[u8], PortNo), LineRefusal>
    ensures end { ok_as (λ end. (end.0.now, end.1)) result ≡ read EndWord word.now }
    ensures within { IfOk result (λ end. IsPort end.1) }
{
    match end_of(word) {
        Some(end) => Ok(end),
        None => Err(LineRefusal::BadPlace),
    }
}

fn side_of(word: &[u8]) -> Option<Side>
    ensures { option_map side_told result ≡ side_of word.now }
{
    if word == "c".as_bytes() {
        return Some(Side::FromController);
    }
    let port = number_in(word, CONTROL_PORT.0 as u32, LAST_PORT as u32)?;
    Some(Side::FromPort(PortNo(port as u8)))
}

fn queue_of(word: &[u8]) -> Option<(&[u8], Side)>
    ensures { option_map (λ queue. (queue.0.now, side_told queue.1)) result ≡ queue_of word.now }
{
    let (name, side) = split_at_sign(word, b':')?;
    if !is_name(name) {
        return None;
    }
    let side = side_of(side)?;
    Some((name, side))
}

/// A name, a colon, and `c`, 0 or a port 1 to 8. Refuses `BadPlace`.
pub fn read_queue(word: &[u8]) -> Result<(&[u8], Side), LineRefusal>
    ensures { ok_as (λ queue. (queue.0.now, side_told queue.1)) result ≡ read QueueWord word.now }
{
    match queue_of(word) {
        Some(queue) => Ok(queue),
        None => Err(LineRefusal::BadPlace),
    }
}

fn channel_of(word: &[u8]) -> Option<Channel>
    ensures { result ≡ channel_of word.now }
{
    let (vpi, vci) = split_at_sign(word, b'/')?;
    let vpi = number_in(vpi, 0, 255)?;
    let vci = number_in(vci, 0, 65_535)?;
    Some(Channel {
        vpi: vpi as u16,
        vci: vci as u16,
    })
}

/// A VPI 0 to 255, a slash and a VCI 0 to 65,535. Refuses `BadChannel`.
pub fn read_channel(word: &[u8]) -> Result<Channel, LineRefusal>
    ensures { result ≡ read ChannelWord word.now }
{
    match channel_of(word) {
        Some(channel) => Ok(channel),
        None => Err(LineRefusal::BadChannel),
    }
}

fn label_of(word: &[u8]) -> Option<u16>
    ensures label { result ≡ label_of word.now }
    ensures within { IfSome result (λ label. is_label_number label ≡ true) }
{
    let channel = channel_of(word)?;
    label_number(channel)
}

/// The number of a label that is written VPI/VCI: VPI 0 to 15, VCI 32 to 1023. Refuses `BadChannel`.
pub fn read_label(word: &[u8]) -> Result<u16, LineRefusal>
    ensures label { result ≡ read LabelWord word.now }
    ensures within { IfOk result (λ label. is_label_number label ≡ true) }
{
    match label_of(word) {
        Some(label) => Ok(label),
        None => Err(LineRefusal::BadChannel),
    }
}
