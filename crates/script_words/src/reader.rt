//! What a line says by its words.

ghost use Rattle.std.specs.Prelude.{◌≡◌, IfOk, IfSome};
ghost use Rattle.std.specs.Option.{option_map};
ghost use Rattle.lab_text.specs.Words.{words};
ghost use Rattle.script_model.specs.Grammar.{said};
ghost use Rattle.script_words.specs.Faults.{ok_as};
ghost use Rattle.script_words.specs.Told.{told, text_said, HasNumbers};

use crate::event_lines::{
    carry_line, forge_line, lose_line, restart_line, restart_switch_line, run_line, send_line,
    set_route_line, tick_line, tick_switch_line, unroute_line,
};
use crate::keyword::keyword_of;
use crate::said::Said;
use crate::topology_lines::{
    cells_line, labels_line, link_line, node_line, policy_line, route_line, timers_line,
    version_line,
};
use lab_text::split_word;
use script_model::{Keyword, LineRefusal};

/// What is said behind a first word.
fn said_behind<'a>(version: u8, keyword: Keyword, rest: &'a [u8]) -> Result<Said<'a>, LineRefusal>
    ensures said { ok_as told result ≡ said version keyword (words rest.now) }
    ensures numbers { IfOk result HasNumbers }
{
    match keyword {
        Keyword::Node => node_line(rest),
        Keyword::Cells => cells_line(rest),
        Keyword::Labels => labels_line(version, rest),
        Keyword::Link => link_line(rest),
        Keyword::Route => route_line(rest),
        Keyword::Policy => policy_line(rest),
        Keyword::Timers => timers_line(rest),
        Keyword::Version => version_line(rest),
        Keyword::Send => send_line(rest),
        Keyword::Carry => carry_line(rest),
        Keyword::Lose => lose_line(rest),
        Keyword::Tick => tick_line(rest),
        Keyword::TickSwitch => tick_switch_line(rest),
        Keyword::Restart => restart_line(rest),
        Keyword::RestartSwitch => restart_switch_line(rest),
        Keyword::Run => run_line(rest),
        Keyword::Forge => forge_line(rest),
        Keyword::SetRoute => set_route_line(rest),
        Keyword::Unroute => unroute_line(rest),
    }
}

/// What the words of `text` say, in a script of this version; `None` where it is blank: without
/// words, or with a first word that begins with `#`. Its refusals come in this order: `UnknownWord`
/// of the first word; `Arity`; `UnknownWord` of a word that is fixed; those of the forms of the other
/// words, from left to right; `BadNumber` of a range of labels that ends before it begins. The numbers
/// of a line of the topology are within their limits, and digits are hexadecimal. It takes no memory.
pub fn read_words<'a>(version: u8, text: &'a [u8]) -> Result<Option<Said<'a>>, LineRefusal>
    ensures said { ok_as (λ said. option_map told said) result ≡ text_said version text.now }
    ensures numbers { IfOk result (λ said. IfSome said HasNumbers) }
{
    let Some((first, rest)) = split_word(text) else {
        return Ok(None);
    };
    if first.starts_with(b"#") {
        return Ok(None);
    }
    let Some(keyword) = keyword_of(first) else {
        return Err(LineRefusal::UnknownWord);
    };
    match said_behind(version, keyword, rest) {
        Ok(said) => Ok(Some(said)),
        Err(refusal) => Err(refusal),
    }
}
