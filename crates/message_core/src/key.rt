//! The keys of Digital Links and their qualifiers.
ghost use Rattle.std.specs.Prelude.{◌≡◌, ◌<◌, IfSome};
ghost use Rattle.message_core.specs.Keys.{cpid_place, gsrn_place, gtin_place, is_key, itip_place, location_place, payment_place, place_by, production_place};

/// Whether an AI is a primary key (GS1 Digital Link: URI syntax, section 4.2).
pub fn is_key(ai: &[u8]) -> bool
    ensures { result ≡ is_key ai.now }
{
    match ai {
        b"00" => true,
        b"01" => true,
        b"253" => true,
        b"255" => true,
        b"401" => true,
        b"402" => true,
        b"414" => true,
        b"415" => true,
        b"417" => true,
        b"8003" => true,
        b"8004" => true,
        b"8006" => true,
        b"8010" => true,
        b"8013" => true,
        b"8017" => true,
        b"8018" => true,
        _ => false,
    }
}

/// The place of a qualifier of a trade item: its variant, lot, serial number or third party's serial number.
fn gtin_place(ai: &[u8]) -> Option<u8>
    ensures value { result ≡ gtin_place ai.now }
    ensures few { IfSome result (λ place. place < 4) }
{
    match ai {
        b"22" => Some(0),
        b"10" => Some(1),
        b"21" => Some(2),
        b"235" => Some(3),
        _ => None,
    }
}

/// The same for a piece of a trade item.
fn itip_place(ai: &[u8]) -> Option<u8>
    ensures value { result ≡ itip_place ai.now }
    ensures few { IfSome result (λ place. place < 4) }
{
    match ai {
        b"22" => Some(0),
        b"10" => Some(1),
        b"21" => Some(2),
        _ => None,
    }
}

/// The same for a location.
fn location_place(ai: &[u8]) -> Option<u8>
    ensures value { result ≡ location_place ai.now }
    ensures few { IfSome result (λ place. place < 4) }
{
    match ai {
        b"254" => Some(0),
        b"7040" => Some(1),
        _ => None,
    }
}

/// The same for the party that is paid.
fn payment_place(ai: &[u8]) -> Option<u8>
    ensures value { result ≡ payment_place ai.now }
    ensures few { IfSome result (λ place. place < 4) }
{
    match ai {
        b"8020" => Some(0),
        _ => None,
    }
}

/// The same for a party or an asset.
fn production_place(ai: &[u8]) -> Option<u8>
    ensures value { result ≡ production_place ai.now }
    ensures few { IfSome result (λ place. place < 4) }
{
    match ai {
        b"7040" => Some(0),
        _ => None,
    }
}

/// The same for a component.
fn cpid_place(ai: &[u8]) -> Option<u8>
    ensures value { result ≡ cpid_place ai.now }
    ensures few { IfSome result (λ place. place < 4) }
{
    match ai {
        b"8011" => Some(0),
        _ => None,
    }
}

/// The same for a service relation.
fn gsrn_place(ai: &[u8]) -> Option<u8>
    ensures value { result ≡ gsrn_place ai.now }
    ensures few { IfSome result (λ place. place < 4) }
{
    match ai {
        b"8019" => Some(0),
        _ => None,
    }
}

/// The place of a qualifier among those of a key, 0 to 3. They come in this order, and each may be missing (GS1
/// Digital Link: URI syntax, section 4.5).
pub fn place_by(key: &[u8], ai: &[u8]) -> Option<u8>
    ensures value { result ≡ place_by key.now ai.now }
    ensures few { IfSome result (λ place. place < 4) }
{
    match key {
        b"01" => gtin_place(ai),
        b"8006" => itip_place(ai),
        b"414" => location_place(ai),
        b"415" => payment_place(ai),
        b"417" => production_place(ai),
        b"8004" => production_place(ai),
        b"8010" => cpid_place(ai),
        b"8017" => gsrn_place(ai),
        b"8018" => gsrn_place(ai),
        _ => None,
    }
}
