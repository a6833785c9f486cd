// The printed microprogram, Figure 5.10, as a constant control store.
#![tactic(auto)]

ghost use Rattle.std.specs.Prelude.{◌≡◌};
ghost use Rattle.printed.specs.Printed.{printed};

const PRINTED: [u32; 64] = [
    107008, 9728, 7397468, 3225681, 4274252, 4274249, 3913216, 512, 7364800, 3912704, 1171712, 448,
    3252736, 512, 4274256, 1993920, 1994944, 4274262, 3912704, 6663680, 4274768, 207, 4274266,
    1073305, 192, 3814592, 1073241, 192, 3225705, 4274273, 4274272, 3814592, 3830976, 4274278,
    2140160, 2203648, 123136, 3814848, 2204160, 2139648, 7348416, 4274289, 2140160, 4274287,
    1171456, 2203904, 448, 1816064, 749, 2203648, 2139648, 512, 4274294, 7364800, 1816011, 0, 0, 0,
    0, 0, 0, 0, 0, 0,
];

// The whole control store.
#[tactic(auto, unfolding(crate::specs::Printed::printed))]
pub fn store() -> [u32; 64]
    ensures { result ≡ printed }
{
    PRINTED
}
