//! What a letter tells the silo's application, and its words.

#![tactic(auto, using(script_lines::proofs::WrittenPieces::word_by_word))]

ghost use Rattle.std.specs.Prelude.{◌≡◌, ◌++◌, [], ◌∷◌, List, ℕ, OnOk, codes};
ghost use Rattle.std.specs.Fmt.{decimal};
ghost use Rattle.std.specs.Option.{option_map};
ghost use Rattle.silo_address.specs.Silo.{Silo};
ghost use Rattle.silo_address.specs.ActivationText.{activation_text};
ghost use Rattle.directory_rules.specs.declared.effect.Effect.{Effect};
ghost use Rattle.directory_rules.specs.declared.outcome.Happening.TheVariants.{Did};
ghost use Rattle.directory_rules.specs.Answer.{why_number};
ghost use Rattle.directory_rules.specs.Host.{asking_under, closing_under, entry_of};
ghost use Rattle.directory_letters.specs.LetterModel.{body_of};
ghost use Rattle.script_rules.specs.Lines.{effect_words, entry_words, happening_words, kind_word};
ghost use Rattle.script_lines.specs.Spaced.{spaced, BeginsWith};
ghost use Rattle.process_rules.specs.Happened.{body_words, counted_words, is_ignored, sought_words, waiting_grain};
ghost use Rattle.process_answers.specs.Telling.{entry_if_any, received_telling, telling_words, that_it_came, waiting_words};

use directory_letters::Body;
use directory_rules::{Effect, Happening, LetterKind, Reply, Why};
use host_activations::{Host, entry_on};
use script_lines::{
    kind_word, push_activation, push_effect, push_entry, push_grain, push_happening, push_named,
    push_number, push_word,
};
use silo_address::{ActivationId, Entry, GrainId, SiloAddress};
use std::alloc::AllocError;

/// What a letter that counts tells the application: a reply, by what waited under its number.
#[derive(Drop)]
pub(crate) enum Telling {
    /// The activation that asked to be entered is firm, at the version that the silo has seen.
    Firm {
        entry: Option<Entry>,
        seen: u64,
    },
    /// The activation that asked has ended: this other one has the grain.
    Taken {
        grain: Option<GrainId>,
        by: ActivationId,
    },
    /// The activation that asked to be taken out has ended, and was entered.
    Removed(Option<Entry>),
    /// It has ended, and wasn't entered.
    Absent(Option<Entry>),
    /// The grain that was searched for has this entry.
    Found(Entry),
    /// The grain that was searched for has none.
    Nothing(Option<GrainId>),
    /// The request of a grain waits on, for that reason.
    Waits {
        waiting: Waiting,
        why: Why,
    },
    /// What the effect tells of a step of the silo's own: an offer began an activation.
    Offered,
    /// No more than that it came.
    Delivered,
}

/// The grain whose request has a number: of an activation that asks to be entered, of one that asks to be taken out, or one that is
/// searched for.
#[derive(Drop)]
pub(crate) struct Waiting {
    asking: Option<GrainId>,
    closing: Option<GrainId>,
    sought: Option<GrainId>,
}

impl Telling {
    /// What a letter tells if it counts, by the host as it is when the letter comes, and the version that its silo has seen.
    pub(crate) fn of_letter(host: &Host, seen: u64, body: &Body) -> Telling
        ensures { (effect : Effect) (delivered : List (List ℕ)) → telling_words result host.now.silo effect delivered ≡ body_words (body_of body.now) host.now seen effect delivered }
    {
        match body {
            Body::Reply { number, reply } => Telling::of_reply(host, seen, *number, reply),
            Body::Offer(_) => Telling::Offered,
            Body::Request(_)
            | Body::Ask { .. }
            | Body::Page(_)
            | Body::Missing(_)
            | Body::Done(_)
            | Body::Query { .. }
            | Body::Report(_)
            | Body::Survey(_)
            | Body::Empty(_)
            | Body::Behind(_)
            | Body::Ahead(_) => Telling::Delivered,
        }
    }

    fn of_reply(host: &Host, seen: u64, number: u64, reply: &Reply) -> Telling
        ensures { (silo : Silo) (effect : Effect) (delivered : List (List ℕ)) → telling_words result silo effect delivered ≡ counted_words host.now seen number reply.now delivered }
    {
        match reply {
            Reply::Registered(_) => Telling::Firm {
                entry: asking_entry(host, number),
                seen,
            },
            Reply::Taken(entry) => Telling::Taken {
                grain: asking_grain(host, number),
                by: entry.activation,
            },
            Reply::Removed => Telling::Removed(closing_entry(host, number)),
            Reply::Absent => Telling::Absent(closing_entry(host, number)),
            Reply::Found(entry) => Telling::Found(*entry),
            Reply::Nothing => Telling::Nothing(host.finding_under(number)),
            Reply::Retry(why) => Telling::Waits {
                waiting: waiting_under(host, number),
                why: *why,
            },
        }
    }
}

// The activation whose Register has the number.
fn asking_entry(host: &Host, number: u64) -> Option<Entry>
    ensures { result ≡ option_map (λ e. entry_of host.now e.0 e.1) (asking_under host.now number) }
{
    let (grain, held) = host.asking_under(number)?;
    Some(entry_on(host.silo(), grain, &held))
}

// Its grain.
fn asking_grain(host: &Host, number: u64) -> Option<GrainId>
    ensures { result ≡ option_map (λ e. e.0) (asking_under host.now number) }
{
    let entry = asking_entry(host, number)?;
    Some(entry.grain)
}

// The activation whose Deregister has the number.
fn closing_entry(host: &Host, number: u64) -> Option<Entry>
    ensures { result ≡ option_map (λ e. entry_of host.now e.0 e.1) (closing_under host.now number) }
{
    let (grain, held) = host.closing_under(number)?;
    Some(entry_on(host.silo(), grain, &held))
}

// Its grain.
fn closing_grain(host: &Host, number: u64) -> Option<GrainId>
    ensures { result ≡ option_map (λ e. e.0) (closing_under host.now number) }
{
    let entry = closing_entry(host, number)?;
    Some(entry.grain)
}

// The grain whose request has the number, whatever that asks.
fn waiting_under(host: &Host, number: u64) -> Waiting
    ensures { waiting_words result ≡ waiting_grain host.now number }
{
    Waiting {
        asking: asking_grain(host, number),
        closing: closing_grain(host, number),
        sought: host.finding_under(number),
    }
}

/// What came of a letter of that kind, in words: what it tells the application, or that it came, where it is ignored.
pub(crate) fn push_received(
    out: &mut Vec<u8>,
    silo: &SiloAddress,
    kind: LetterKind,
    telling: &Telling,
    effect: &Effect,
) -> Result<(), AllocError>
    ensures written { OnOk result (out.new.items ≡ out.old.items ++ spaced (received_telling telling.now silo.now kind effect.now)) }
    ensures kept { BeginsWith out.old.items out.new.items }
{
    if is_ignored(effect) {
        return push_delivered(out, kind, effect);
    }
    match telling {
        Telling::Firm { entry, seen } => push_firm(out, entry, *seen),
        Telling::Taken { grain, by } => push_taken(out, grain, by),
        Telling::Removed(entry) => push_ended(out, entry, b"removed"),
        Telling::Absent(entry) => push_ended(out, entry, b"absent"),
        Telling::Found(entry) => push_found(out, entry),
        Telling::Nothing(grain) => push_nothing(out, grain),
        Telling::Waits { waiting, why } => push_waits(out, kind, effect, waiting, *why),
        Telling::Offered => push_did(out, silo, effect),
        Telling::Delivered => push_delivered(out, kind, effect),
    }
}

fn is_ignored(effect: &Effect) -> bool
    ensures { result ≡ is_ignored effect.now }
{
    matches!(effect, Effect::Ignored)
}

// The kind and the effect.
fn push_delivered(out: &mut Vec<u8>, kind: LetterKind, effect: &Effect) -> Result<(), AllocError>
    ensures written { OnOk result (out.new.items ≡ out.old.items ++ spaced (codes "delivered" ∷ kind_word kind ∷ effect_words effect.now)) }
    ensures kept { BeginsWith out.old.items out.new.items }
{
    push_word(out, b"delivered")?;
    push_word(out, kind_word(kind))?;
    push_effect(out, effect)?;
    Ok(())
}

// That a letter came by which a grain's request waits on, and why.
fn push_waits(
    out: &mut Vec<u8>,
    kind: LetterKind,
    effect: &Effect,
    waiting: &Waiting,
    why: Why,
) -> Result<(), AllocError>
    ensures written { OnOk result (out.new.items ≡ out.old.items ++ spaced (that_it_came kind effect.now ++ (waiting_words waiting.now ++ decimal (why_number why) ∷ []))) }
    ensures kept { BeginsWith out.old.items out.new.items }
{
    push_delivered(out, kind, effect)?;
    push_waiting(out, waiting)?;
    push_number(out, u64::from(why.number()))?;
    Ok(())
}

fn push_waiting(out: &mut Vec<u8>, waiting: &Waiting) -> Result<(), AllocError>
    ensures written { OnOk result (out.new.items ≡ out.old.items ++ spaced (waiting_words waiting.now)) }
    ensures kept { BeginsWith out.old.items out.new.items }
{
    push_grain_if_any(out, &waiting.asking)?;
    push_grain_if_any(out, &waiting.closing)?;
    push_grain_if_any(out, &waiting.sought)?;
    Ok(())
}

// Which activation is firm, and at which version.
fn push_firm(out: &mut Vec<u8>, entry: &Option<Entry>, seen: u64) -> Result<(), AllocError>
    ensures written { OnOk result (out.new.items ≡ out.old.items ++ spaced (codes "firm" ∷ (entry_if_any entry.now ++ codes "at" ∷ decimal seen ∷ []))) }
    ensures kept { BeginsWith out.old.items out.new.items }
{
    push_word(out, b"firm")?;
    push_entry_if_any(out, entry)?;
    push_named(out, b"at", seen)?;
    Ok(())
}

// Which activation has ended, and how.
fn push_ended(out: &mut Vec<u8>, entry: &Option<Entry>, how: &[u8]) -> Result<(), AllocError>
    ensures written { OnOk result (out.new.items ≡ out.old.items ++ spaced (codes "ended" ∷ (entry_if_any entry.now ++ how.now ∷ []))) }
    ensures kept { BeginsWith out.old.items out.new.items }
{
    push_word(out, b"ended")?;
    push_entry_if_any(out, entry)?;
    push_word(out, how)?;
    Ok(())
}

fn push_entry_if_any(out: &mut Vec<u8>, entry: &Option<Entry>) -> Result<(), AllocError>
    ensures written { OnOk result (out.new.items ≡ out.old.items ++ spaced (entry_if_any entry.now)) }
    ensures kept { BeginsWith out.old.items out.new.items }
{
    match entry {
        Some(entry) => push_entry(out, entry),
        None => Ok(()),
    }
}

// Which grain another activation has.
fn push_taken(
    out: &mut Vec<u8>,
    grain: &Option<GrainId>,
    by: &ActivationId,
) -> Result<(), AllocError>
    ensures written { OnOk result (out.new.items ≡ out.old.items ++ spaced (codes "taken" ∷ (sought_words grain.now ++ codes "by" ∷ activation_text by.now ∷ []))) }
    ensures kept { BeginsWith out.old.items out.new.items }
{
    push_word(out, b"taken")?;
    push_grain_if_any(out, grain)?;
    push_word(out, b"by")?;
    push_activation(out, by)?;
    Ok(())
}

fn push_grain_if_any(out: &mut Vec<u8>, grain: &Option<GrainId>) -> Result<(), AllocError>
    ensures written { OnOk result (out.new.items ≡ out.old.items ++ spaced (sought_words grain.now)) }
    ensures kept { BeginsWith out.old.items out.new.items }
{
    match grain {
        Some(grain) => push_grain(out, grain),
        None => Ok(()),
    }
}

fn push_found(out: &mut Vec<u8>, entry: &Entry) -> Result<(), AllocError>
    ensures written { OnOk result (out.new.items ≡ out.old.items ++ spaced (codes "found" ∷ entry_words entry.now)) }
    ensures kept { BeginsWith out.old.items out.new.items }
{
    push_word(out, b"found")?;
    push_entry(out, entry)?;
    Ok(())
}

fn push_nothing(out: &mut Vec<u8>, grain: &Option<GrainId>) -> Result<(), AllocError>
    ensures written { OnOk result (out.new.items ≡ out.old.items ++ spaced (codes "nothing" ∷ sought_words grain.now)) }
    ensures kept { BeginsWith out.old.items out.new.items }
{
    push_word(out, b"nothing")?;
    push_grain_if_any(out, grain)?;
    Ok(())
}

// What the silo did.
fn push_did(out: &mut Vec<u8>, silo: &SiloAddress, effect: &Effect) -> Result<(), AllocError>
    ensures written { OnOk result (out.new.items ≡ out.old.items ++ spaced (happening_words (Did silo.now effect.now))) }
    ensures kept { BeginsWith out.old.items out.new.items }
{
    let happening = Happening::Did {
        silo: *silo,
        effect: *effect,
    };
    push_happening(out, &happening)
}
