//! The moves of the tests.

use crate::told::Way;
use chess_rules::Kind;

pub const A1_A4: Way = Way {
    from: 56,
    to: 32,
    promotion: None,
};

pub const A1_A8: Way = Way {
    from: 56,
    to: 0,
    promotion: None,
};

pub const D2_D3: Way = Way {
    from: 51,
    to: 43,
    promotion: None,
};

pub const D2_D4: Way = Way {
    from: 51,
    to: 35,
    promotion: None,
};

pub const D8_G5: Way = Way {
    from: 3,
    to: 30,
    promotion: None,
};

pub const D8_H4: Way = Way {
    from: 3,
    to: 39,
    promotion: None,
};

pub const E1_G1: Way = Way {
    from: 60,
    to: 62,
    promotion: None,
};

pub const E2_E3: Way = Way {
    from: 52,
    to: 44,
    promotion: None,
};

pub const E2_E4: Way = Way {
    from: 52,
    to: 36,
    promotion: None,
};

pub const E4_D5: Way = Way {
    from: 36,
    to: 27,
    promotion: None,
};

pub const E5_D6: Way = Way {
    from: 28,
    to: 19,
    promotion: None,
};

pub const E7_E5: Way = Way {
    from: 12,
    to: 28,
    promotion: None,
};

pub const E7_E8_KNIGHT: Way = Way {
    from: 12,
    to: 4,
    promotion: Some(Kind::Knight),
};

pub const E7_E8_QUEEN: Way = Way {
    from: 12,
    to: 4,
    promotion: Some(Kind::Queen),
};

pub const F2_F3: Way = Way {
    from: 53,
    to: 45,
    promotion: None,
};

pub const G2_G4: Way = Way {
    from: 54,
    to: 38,
    promotion: None,
};

pub const H1_F1: Way = Way {
    from: 63,
    to: 61,
    promotion: None,
};
