//! The digest of an owner.
ghost use Rattle.std.specs.Prelude.{◌≡◌, ◌<◌, length, Ok};
ghost use Rattle.owner_catalog.specs.Entries.{owner_entry_at};
ghost use Rattle.owner_catalog.specs.Digest.{digest_of};

use crate::catalog::Catalog;
use fz_ast::NoMemory;
use sha2::{Digest, Sha256};

/// The digest of an owner under a key: what it is a digest of is all that an answer depends on but for the program.
/// `tables` has the SHA-256 of each of the owner's table files, in order.
pub fn digest(
    catalog: &Catalog,
    owner: u32,
    key: &[u8; 32],
    tables: &[[u8; 32]],
) -> Result<[u8; 32], NoMemory>
    requires owner { owner < length catalog.now.owners }
    requires tables { length tables.now ≡ length (owner_entry_at catalog.now owner).tables }
    ensures { result ≡ Ok (digest_of catalog.now owner key.now tables.now) }
{
    let mut hasher = Sha256::new();
    hasher.update(key);
    hasher.update(catalog.text());
    hasher.update(b"\n");
    hasher.update(catalog.owner_text(owner));
    hasher.update(b"\n");
    for table in tables {
        hasher.update(table);
    }
    Ok(hasher.finalize())
}
