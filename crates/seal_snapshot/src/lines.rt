//! The lines of entries, as a digest takes them: no text is made, so none of this needs memory.
ghost use Rattle.std.specs.Prelude.{◌≡◌, ◌++◌, ◌∷◌, [], flat_map};
ghost use Rattle.std.specs.Fmt.{decimal};
ghost use Rattle.silo_address.specs.ActivationText.{activation_text};
ghost use Rattle.silo_address.specs.SiloText.{silo_text};
ghost use Rattle.directory_rules.specs.Snapshot.{digest_line, digest_of};
ghost use Rattle.seal_snapshot.specs.Lines.{Takes, ip_text};

use grain_table::ShortEntry;
use itoa::Buffer;
use sha2::{Digest, Sha256};
use silo_address::{ActivationId, Entry, SiloAddress};

/// The digest of entries: the SHA-256 of their lines.
pub(crate) fn digest_of(entries: &[ShortEntry]) -> [u8; 32]
    ensures { result ≡ digest_of entries.now }
{
    let mut hasher = Sha256::new();
    take_short_entries(&mut hasher, entries);
    hasher.finalize()
}

/// A hasher that has taken what the other one has.
pub(crate) fn copy_of(hasher: &Sha256) -> Sha256
    ensures { result ≡ hasher.now }
{
    hasher.clone().unwrap()
}

/// Takes the lines of entries.
pub(crate) fn take_entries(hasher: &mut Sha256, entries: &[Entry])
    ensures { Takes hasher.old (flat_map digest_line entries.now) hasher.new }
{
    for entry in entries {
        take_entry(hasher, entry);
    }
}

// The same, of entries that are kept short.
fn take_short_entries(hasher: &mut Sha256, entries: &[ShortEntry])
    ensures { Takes hasher.old (flat_map digest_line entries.now) hasher.new }
{
    for entry in entries {
        take_short_entry(hasher, entry);
    }
}

// An entry's line: the grain, a space, the activation, a line feed.
fn take_entry(hasher: &mut Sha256, entry: &Entry)
    ensures { Takes hasher.old (digest_line entry.now) hasher.new }
{
    take_marked(hasher, entry.grain.as_bytes(), b' ');
    take_activation(hasher, &entry.activation, b'\n');
}

// The same, of an entry that is kept short.
fn take_short_entry(hasher: &mut Sha256, entry: &ShortEntry)
    ensures { Takes hasher.old (digest_line entry.now) hasher.new }
{
    take_marked(hasher, entry.text(), b' ');
    take_activation(hasher, &entry.activation(), b'\n');
}

fn take_activation(hasher: &mut Sha256, activation: &ActivationId, mark: u8)
    ensures { Takes hasher.old (activation_text activation.now ++ mark ∷ []) hasher.new }
{
    take_silo(hasher, &activation.silo, b'!');
    take_number(hasher, activation.count, mark);
}

fn take_silo(hasher: &mut Sha256, silo: &SiloAddress, mark: u8)
    ensures { Takes hasher.old (silo_text silo.now ++ mark ∷ []) hasher.new }
{
    take_ip(hasher, silo.ip());
    take_number(hasher, u64::from(silo.port()), b'@');
    take_number(hasher, u64::from(silo.generation()), mark);
}

fn take_ip(hasher: &mut Sha256, ip: [u8; 4])
    ensures { Takes hasher.old (ip_text ip) hasher.new }
{
    let [first, second, third, fourth] = ip;
    take_number(hasher, u64::from(first), b'.');
    take_number(hasher, u64::from(second), b'.');
    take_number(hasher, u64::from(third), b'.');
    take_number(hasher, u64::from(fourth), b':');
}

fn take_number(hasher: &mut Sha256, number: u64, mark: u8)
    ensures { Takes hasher.old (decimal number ++ mark ∷ []) hasher.new }
{
    let mut digits = Buffer::new();
    take_marked(hasher, digits.format(number).as_bytes(), mark);
}

// A text, and a mark behind it.
fn take_marked(hasher: &mut Sha256, text: &[u8], mark: u8)
    ensures { Takes hasher.old (text.now ++ mark ∷ []) hasher.new }
{
    hasher.update(text);
    hasher.update([mark]);
}
