//! A change made and letters sent, or neither: the letters are sent first, and taken back where memory runs out.
ghost use Rattle.std.specs.Prelude.{◌≡◌, Some, IsSome, OnErr, OnOk};
ghost use Rattle.std.specs.Map.{lookup};
ghost use Rattle.std.specs.BTreeMap.{is_at, insert_entry};
ghost use Rattle.silo_address.specs.Silo.{silo_cmp};
ghost use Rattle.directory_rules.specs.State.{Letter as LetterValue, Node as NodeValue};
ghost use Rattle.directory_node.specs.Plans.{Fits, changed};
ghost use Rattle.letter_mail.specs.Mail.{letter_in, with_posted, with_stale};

use directory_letters::Letter;
use directory_node::{Change, SharedNode};
use letter_mail::Mail;
use silo_address::SiloAddress;
use std::alloc::AllocError;
use std::collections::BTreeMap;

/// The silo's node makes the change, the letters are sent, and the letter of a number is fresh no more, since it was received.
pub(crate) fn receive_at(
    nodes: &mut BTreeMap<SiloAddress, SharedNode>,
    mail: &mut Mail,
    silo: &SiloAddress,
    number: u64,
    letters: Vec<Letter>,
    change: Change,
) -> Result<(), AllocError>
    requires letter { IsSome (letter_in mail.old number) }
    requires there { IsSome (lookup (is_at (silo_cmp silo.now)) nodes.old.entries) }
    requires fits { (node : NodeValue) → lookup (is_at (silo_cmp silo.now)) nodes.old.entries ≡ Some node → Fits change node }
    ensures made { OnOk result ((node : NodeValue) → lookup (is_at (silo_cmp silo.now)) nodes.old.entries ≡ Some node → nodes.new.entries ≡ insert_entry silo_cmp nodes.old.entries silo.now (changed change node)) }
    ensures posted { OnOk result ((letter : LetterValue) → letter_in mail.old number ≡ Some letter → mail.new ≡ with_posted (with_stale mail.old number letter) letters.items) }
    ensures unchanged { OnErr result (nodes.new.entries ≡ nodes.old.entries) }
    ensures mail_unchanged { OnErr result (mail.new ≡ mail.old) }
{
    carry_out_at(nodes, mail, silo, letters, change)?;
    mail.deliver(number);
    Ok(())
}

/// The silo's node makes the change, and the letters are sent.
#[tactic(auto, using(std::proofs::lemmas::Map::Steps::set_value_same))]
pub(crate) fn carry_out_at(
    nodes: &mut BTreeMap<SiloAddress, SharedNode>,
    mail: &mut Mail,
    silo: &SiloAddress,
    letters: Vec<Letter>,
    change: Change,
) -> Result<(), AllocError>
    requires there { IsSome (lookup (is_at (silo_cmp silo.now)) nodes.old.entries) }
    requires fits { (node : NodeValue) → lookup (is_at (silo_cmp silo.now)) nodes.old.entries ≡ Some node → Fits change node }
    ensures made { OnOk result ((node : NodeValue) → lookup (is_at (silo_cmp silo.now)) nodes.old.entries ≡ Some node → nodes.new.entries ≡ insert_entry silo_cmp nodes.old.entries silo.now (changed change node)) }
    ensures posted { OnOk result (mail.new ≡ with_posted mail.old letters.items) }
    ensures unchanged { OnErr result (nodes.new.entries ≡ nodes.old.entries) }
    ensures mail_unchanged { OnErr result (mail.new ≡ mail.old) }
{
    let Some(node) = nodes.get_mut(silo) else {
        unreachable!()
    };
    let count = letters.len();
    mail.numbered();
    mail.post(letters)?;
    match node.carry_out(change) {
        Ok(()) => Ok(()),
        Err(error) => {
            mail.take_back(count);
            Err(error)
        }
    }
}
