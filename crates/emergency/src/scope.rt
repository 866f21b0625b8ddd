// The scope of an emergency token.
ghost use Rattle.std.specs.Prelude.{◌≡◌};
ghost use Rattle.emergency.specs.Emergency.{scope};

use sets::bits;

// The labels that each emergency state opens: document 01's table, by the state's number.
const LABEL_MASKS: [u16; 8] = [
    0x000F, 0x000B, 0x0017, 0x0023, 0x00C3, 0x01C3, 0x0603, 0x000B,
];

// The union over the states of the set.
pub fn scope(states: u8) -> u16
    ensures { result ≡ scope states }
{
    let mut labels = 0;
    for (s, mask) in LABEL_MASKS.iter().enumerate() {
        if (states >> s) % 2 == 1 {
            labels = bits::join(labels, *mask);
        }
    }
    labels
}
