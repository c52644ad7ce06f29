// What all reasons for a refusal have in common, whichever call refuses.
#![tactic(auto)]

ghost use Rattle.std.specs.Prelude.{◌≡◌, ℕ};

// A reason for which a call is refused.
pub trait Refusal {
    // The number by which the reason is known outside.
    ghost known_by: { Self → ℕ };

    fn number(self) -> u8
        ensures { result ≡ known_by self };
}
