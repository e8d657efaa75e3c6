// The two checks of a block, each of its bytes 0 to 507.
#![tactic(auto)]

ghost use Rattle.std.specs.Prelude.{◌≡◌, ◌≤◌, length};
ghost use Rattle.paper.specs.Block.{check_a, check_b, checks_start};

const MODULUS: u32 = 65521;

// Check A of `s`: the sum, modulo 65,521.
pub fn check_a(s: &[u8]) -> u32
    requires { length s.now ≤ checks_start }
    ensures { result ≡ check_a s.now }
{
    s.iter().map(|&x| u32::from(x)).sum::<u32>() % MODULUS
}

// Check B of `s`: the sum in which byte i weighs i + 1, modulo 65,521.
pub fn check_b(s: &[u8]) -> u32
    requires { length s.now ≤ checks_start }
    ensures { result ≡ check_b s.now }
{
    let mut sum: u32 = 0;
    for (i, &x) in s.iter().enumerate() {
        sum += (i as u32 + 1) * u32::from(x);
    }
    sum % MODULUS
}
