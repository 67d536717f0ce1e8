//! Deliveries kept short. Most events of a cluster are deliveries, and a journal keeps every event.
ghost use Rattle.std.specs.Prelude.{◌≡◌, ◌↔◌, IsTrue, MatchOption, true};
ghost use Rattle.directory_rules.specs.Event.{Deliver as DeliverSeen};
ghost use Rattle.directory_rules.specs.EventModel.{event_of};
ghost use Rattle.cluster_journal.specs.Short.{IsLong, NamesGrain, delivered, effect_by, entry_by};

use directory_rules::{Effect, Event, Happening, LetterKind, Outcome, Span, Why};

// An effect that names no grain, and so needs little room.
#[derive(Clone, Copy)]
pub(crate) enum ShortEffect {
    Next,
    Skip,
    Nudged,
    Registered,
    Taken,
    Removed,
    Absent,
    Found,
    Nothing,
    Retry(Why),
    Firm,
    Yielded,
    Ended,
    Learnt,
    Noted,
    Ignored,
    Page,
    Missing,
    Behind,
    Ahead,
    Installed,
    Gathering,
    Refused(u16),
    Recovering,
    Deleted,
    Report,
    More,
    Complete,
}

impl ShortEffect {
    // The effect kept short, unless it names a grain.
    pub(crate) fn of(effect: &Effect) -> Option<ShortEffect>
        ensures { MatchOption result (NamesGrain effect.now) (λ short. effect_by short ≡ effect.now) }
    {
        match effect {
            Effect::Next => Some(ShortEffect::Next),
            Effect::Skip => Some(ShortEffect::Skip),
            Effect::Nudged => Some(ShortEffect::Nudged),
            Effect::Registered => Some(ShortEffect::Registered),
            Effect::Taken => Some(ShortEffect::Taken),
            Effect::Removed => Some(ShortEffect::Removed),
            Effect::Absent => Some(ShortEffect::Absent),
            Effect::Found => Some(ShortEffect::Found),
            Effect::Nothing => Some(ShortEffect::Nothing),
            Effect::Retry(why) => Some(ShortEffect::Retry(*why)),
            Effect::Firm => Some(ShortEffect::Firm),
            Effect::Yielded => Some(ShortEffect::Yielded),
            Effect::Ended => Some(ShortEffect::Ended),
            Effect::Learnt => Some(ShortEffect::Learnt),
            Effect::Noted => Some(ShortEffect::Noted),
            Effect::Ignored => Some(ShortEffect::Ignored),
            Effect::Page => Some(ShortEffect::Page),
            Effect::Missing => Some(ShortEffect::Missing),
            Effect::Behind => Some(ShortEffect::Behind),
            Effect::Ahead => Some(ShortEffect::Ahead),
            Effect::Installed => Some(ShortEffect::Installed),
            Effect::Gathering => Some(ShortEffect::Gathering),
            Effect::Refused(number) => Some(ShortEffect::Refused(*number)),
            Effect::Recovering => Some(ShortEffect::Recovering),
            Effect::Deleted => Some(ShortEffect::Deleted),
            Effect::Report => Some(ShortEffect::Report),
            Effect::More => Some(ShortEffect::More),
            Effect::Complete => Some(ShortEffect::Complete),
            Effect::Started(_)
            | Effect::Closing(_)
            | Effect::Cancelled(_)
            | Effect::Offered { .. }
            | Effect::Cached(_)
            | Effect::Finding(_)
            | Effect::Forgot(_)
            | Effect::NothingCached(_) => None,
        }
    }

    // The effect.
    pub(crate) fn effect(self) -> Effect
        ensures { result ≡ effect_by self }
    {
        match self {
            ShortEffect::Next => Effect::Next,
            ShortEffect::Skip => Effect::Skip,
            ShortEffect::Nudged => Effect::Nudged,
            ShortEffect::Registered => Effect::Registered,
            ShortEffect::Taken => Effect::Taken,
            ShortEffect::Removed => Effect::Removed,
            ShortEffect::Absent => Effect::Absent,
            ShortEffect::Found => Effect::Found,
            ShortEffect::Nothing => Effect::Nothing,
            ShortEffect::Retry(why) => Effect::Retry(why),
            ShortEffect::Firm => Effect::Firm,
            ShortEffect::Yielded => Effect::Yielded,
            ShortEffect::Ended => Effect::Ended,
            ShortEffect::Learnt => Effect::Learnt,
            ShortEffect::Noted => Effect::Noted,
            ShortEffect::Ignored => Effect::Ignored,
            ShortEffect::Page => Effect::Page,
            ShortEffect::Missing => Effect::Missing,
            ShortEffect::Behind => Effect::Behind,
            ShortEffect::Ahead => Effect::Ahead,
            ShortEffect::Installed => Effect::Installed,
            ShortEffect::Gathering => Effect::Gathering,
            ShortEffect::Refused(number) => Effect::Refused(number),
            ShortEffect::Recovering => Effect::Recovering,
            ShortEffect::Deleted => Effect::Deleted,
            ShortEffect::Report => Effect::Report,
            ShortEffect::More => Effect::More,
            ShortEffect::Complete => Effect::Complete,
        }
    }
}

// A delivery, whose effect names no grain.
#[derive(Clone, Copy)]
pub(crate) struct Delivery {
    pub(crate) number: u64,
    pub(crate) sent: Option<Span>,
    pub(crate) effect: ShortEffect,
    pub(crate) kind: LetterKind,
}

impl Delivery {
    // The entry of this event, which told this, kept short, unless it is long.
    pub(crate) fn of(event: &Event, outcome: &Outcome) -> Option<Delivery>
        ensures { MatchOption result (IsLong (event_of event.now) outcome.now.happening) (λ delivery. entry_by delivery ≡ record { event = event_of event.now; outcome = outcome.now }) }
    {
        let Event::Deliver { number } = event else {
            return None;
        };
        let Happening::Delivered {
            number: its,
            kind,
            effect,
        } = &outcome.happening
        else {
            return None;
        };
        if number != its {
            return None;
        }
        let effect = ShortEffect::of(effect)?;
        Some(Delivery {
            number: *number,
            sent: outcome.sent,
            effect,
            kind: *kind,
        })
    }

    // What it told.
    pub(crate) fn outcome(&self) -> Outcome
        ensures { result ≡ delivered self.now }
    {
        Outcome {
            happening: Happening::Delivered {
                number: self.number,
                kind: self.kind,
                effect: self.effect.effect(),
            },
            sent: self.sent,
        }
    }

    // Whether the event is this delivery.
    pub(crate) fn is_of(&self, event: &Event) -> bool
        ensures { IsTrue result ↔ (event_of event.now ≡ DeliverSeen self.now.number) }
    {
        let number = self.number;
        event.same(&Event::Deliver { number })
    }
}
