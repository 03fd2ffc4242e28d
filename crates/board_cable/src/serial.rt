//! The serial number in a message.
ghost use Rattle.std.specs.Prelude.{◌≡◌, IfNone, IfSome, false, true};
ghost use Rattle.std.specs.List.{list_all};
ghost use Rattle.board_cable.specs.Serial.{is_serial, is_visible};

fn is_visible(character: u8) -> bool
    ensures { result ≡ is_visible character }
{
    character >= 0x21 && character <= 0x7E
}

fn are_visible(characters: &[u8]) -> bool
    ensures { result ≡ list_all is_visible characters.now }
{
    for character in characters {
        if !is_visible(*character) {
            return false;
        }
    }
    true
}

/// The serial number in a message with this identifier and these data bytes: five visible characters of ASCII. None if it has none.
pub fn serial_in(identifier: u8, characters: &[u8]) -> Option<[u8; 5]>
    ensures some { IfSome result (λ number. (is_serial identifier characters.now ≡ true) × (number ≡ characters.now)) }
    ensures none { IfNone result (is_serial identifier characters.now ≡ false) }
{
    if identifier != 0x91 || characters.len() != 5 || !are_visible(characters) {
        return None;
    }
    <[u8; 5]>::try_from(characters).ok()
}
