//! The headers of the owners' journals.

ghost use Rattle.std.specs.Prelude.{◌≡◌, ◌<◌, ◌≤◌, ℕ, get_or, length, IfErr, IfOk};
ghost use Rattle.std.specs.List.{All};
ghost use Rattle.journal_records.specs.Encoding.{IsHeader};
ghost use Rattle.journal_records.specs.declared.records.Header.{Header as HeaderModel};
ghost use Rattle.owner_catalog.specs.Limits.{owner_limit};
ghost use Rattle.catalog_loading.specs.Loaded.{IsKeyedHouse, new_header, owners_in};

use crate::opening::Keyed;
use crate::registers::Registered;
use crate::stops::Stop;
use journal_records::records::{Header, NEWEST_VERSION};
use owner_catalog::digest;
use std::alloc::Global;

/// The header of an owner's journal where it is new.
fn header_for<H: Registered>(opened: &Keyed<H>, owner: u32) -> Result<Header, Stop>
    requires { owner < owners_in opened.now.loading }
    ensures header { IfOk result (λ header. header ≡ new_header opened.now.loading opened.now.key owner) }
    ensures valid { IfOk result IsHeader }
    ensures memory { IfErr result (λ stop. stop ≡ Stop.NoMemory) }
{
    let catalog = opened.catalog();
    let key = opened.key();
    let digest = digest(catalog, owner, &key, opened.hashes(owner))?;
    Ok(Header {
        owner,
        budget: catalog.budget(owner),
        capacity: catalog.capacity(owner),
        digest,
        version: NEWEST_VERSION,
    })
}

/// The header of each owner's journal, in order.
pub fn headers_of<H: Registered>(alloc: Global, opened: &Keyed<H>) -> Result<Vec<Header>, Stop>
    ensures count { IfOk result (λ headers. length headers.items ≡ owners_in opened.now.loading) }
    ensures few { IfOk result (λ headers. length headers.items ≤ owner_limit) }
    ensures headers { IfOk result (λ headers. (o : ℕ) (d : HeaderModel) → o < owners_in opened.now.loading →
        get_or headers.items o d ≡ new_header opened.now.loading opened.now.key o) }
    ensures valid { IfOk result (λ headers. All IsHeader headers.items) }
    ensures memory { IfErr result (λ stop. stop ≡ Stop.NoMemory) }
    ensures lawful { IsKeyedHouse opened.now }
{
    let mut headers = Vec::new(alloc);
    for owner in 0..opened.catalog().owners() as u32 {
        let header = header_for(opened, owner)?;
        headers.push(header)?;
    }
    Ok(headers)
}
