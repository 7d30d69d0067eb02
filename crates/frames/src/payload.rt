ghost use Rattle.std.specs.Prelude.{◌≡◌};
ghost use Rattle.frames.specs.Payloads.{BytesBack, Form, PayloadsBack, record_fits, record_form, word_fits, word_form};
ghost use Rattle.frames.specs.Back.{record_bytes_back, records_back, word_bytes_back, words_back};

// What a packet carries, as the four payload bytes of a frame.
pub trait Payload: Copy {
    ghost form: { Form Self };
    // the payloads that the type holds: `to_bytes` shows it of each that there is
    ghost fits: { Self → Type 0 };

    fn to_bytes(self) -> [u8; 4]
        ensures bytes { result ≡ form.bytes self }
        ensures fits { fits self };

    fn from_bytes(bytes: [u8; 4]) -> Self
        ensures { result ≡ form.value bytes };

    ghost back: { PayloadsBack fits form };

    ghost bytes_back: { BytesBack form };
}

// What was collected: how many litres, from which tank.
#[derive(Clone, Copy, Debug, PartialEq, Eq, Default)]
pub struct Collection {
    pub tank: u16,
    pub litres: u16,
}

impl Payload for u32 {
    ghost form = { word_form };

    ghost fits = { word_fits };

    ghost back = { words_back };

    ghost bytes_back = { word_bytes_back };

    fn to_bytes(self) -> [u8; 4] {
        self.to_be_bytes()
    }

    fn from_bytes(bytes: [u8; 4]) -> u32 {
        u32::from_be_bytes(bytes)
    }
}

impl Payload for Collection {
    ghost form = { record_form };

    ghost fits = { record_fits };

    ghost back = { records_back };

    ghost bytes_back = { record_bytes_back };

    fn to_bytes(self) -> [u8; 4] {
        let [tank_high, tank_low] = self.tank.to_be_bytes();
        let [litres_high, litres_low] = self.litres.to_be_bytes();
        [tank_high, tank_low, litres_high, litres_low]
    }

    fn from_bytes(bytes: [u8; 4]) -> Collection {
        let [tank_high, tank_low, litres_high, litres_low] = bytes;
        Collection {
            tank: u16::from_be_bytes([tank_high, tank_low]),
            litres: u16::from_be_bytes([litres_high, litres_low]),
        }
    }
}
