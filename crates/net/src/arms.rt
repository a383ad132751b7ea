// Each node's arms, by rising number: how many there are, and 64 places to list them.
ghost use Rattle.std.specs.Prelude.{◌≡◌, ℕ, ◌+◌, ◌<◌, length};
ghost use Rattle.net.specs.Net.{transistors_place, degree_place, net_length, at as at_place, net_circuit};
ghost use Rattle.net.specs.Laid.{Within};
ghost use Rattle.net.specs.Written.{puts, arm_writes, Armed};

fn put_arm(net: &mut [u32], n: u32, i: u32)
    requires { (length net.old ≡ net_length) × (n < 26) × (at_place net.old (degree_place + n) < 64) }
    ensures { net.new ≡ puts net.old (arm_writes net.old n i) }
{
    let node = n as usize;
    let degree = net[crate::DEGREE + node];
    net[crate::ARMS + 64 * node + degree as usize] = i;
    net[crate::DEGREE + node] = degree + 1;
}

// From no arms on, every transistor is put at its two ends.
pub fn put_arms(net: &mut [u32])
    requires { (length net.old ≡ net_length) × Within net.old × ((n : ℕ) → n < 26 → at_place net.old (degree_place + n) ≡ 0) }
    ensures { Armed (net_circuit net.old).transistors (at_place net.old transistors_place) net.old net.new }
{
    let count = net[crate::TRANSISTORS];
    for i in 0..count {
        let first = net[crate::FIRST + i as usize];
        let second = net[crate::SECOND + i as usize];
        put_arm(net, first, i);
        put_arm(net, second, i);
    }
}
