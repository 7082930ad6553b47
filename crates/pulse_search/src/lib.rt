// Single pulses, each at the place that serves best: the search that shapes 3, 2 and 1 share. The running search
// record goes through it by value. Public for the crates above only; every result is pinned by a definition, but for the
// guess of crate pulse_guess, which promises a place below 16 and is tested before it is taken.
#![tactic(auto)]

ghost use Rattle.std.specs.Prelude.{◌≡◌, ◌+◌, ◌-◌, ◌<◌, ◌≤◌, length};
ghost use Rattle.pulse_guess.specs.Lanes.{first_of};
ghost use Rattle.pulse_search.specs.Pulse.{pair_at, replaces, best_to, start, more, total_to};

// The running search record: the correlation of the pulses with the target, and their energy.
#[derive(Clone, Copy)]
pub struct SearchRecord {
    pub correlation: f32,
    pub energy: f32,
}

impl SearchRecord {
    // The pair with one pulse more at place n.
    fn pair_at(self, abs_x: &[f32; 16], y: &[u8; 16], n: usize) -> SearchRecord
        requires { n < 16 }
        ensures { result ≡ pair_at abs_x.now y.now self n }
    {
        SearchRecord {
            correlation: self.correlation + abs_x[n],
            energy: (self.energy + 2.0 * f32::from(y[n])) + 1.0,
        }
    }

    // The quotients c·c / e are compared by cross-multiplying.
    fn replaces(self, best: SearchRecord) -> bool
        ensures { result ≡ replaces self best }
    {
        (best.correlation * best.correlation) * self.energy
            < (self.correlation * self.correlation) * best.energy
    }
}

// The best of places 0 to last, one place after another. The range is no `1..=last`, which takes more instructions.
fn scan_places(abs_x: &[f32; 16], y: &[u8; 16], r: SearchRecord, last: usize) -> usize
    requires { last < 16 }
    ensures { result ≡ best_to abs_x.now y.now r last }
{
    let mut n_best = 0;
    let mut best = r.pair_at(abs_x, y, 0);
    for n in 1..last + 1 {
        let p = r.pair_at(abs_x, y, n);
        if p.replaces(best) {
            n_best = n;
            best = p;
        }
    }
    n_best
}

// The best of places 0 to last; low_x has zeros past them. No struct holds these: y is lent for change between the calls.
fn best_place(
    abs_x: &[f32; 16],
    low_x: &[f32; 16],
    y: &[u8; 16],
    r: SearchRecord,
    last: usize,
) -> usize
    requires { (last < 16) × (low_x.now ≡ first_of abs_x.now last) }
    ensures { result ≡ best_to abs_x.now y.now r last }
{
    let c = pulse_guess::squares(low_x, r.correlation);
    let e = pulse_guess::energies(y, r.energy);
    let g = pulse_guess::guess(&c, &e);
    if g <= last && pulse_guess::unbeaten(&c, &e, g) == 1 {
        g
    } else {
        scan_places(abs_x, y, r, last)
    }
}

// The pulses of the first n places, as `total_to` has them.
pub fn total(y: &[u8; 16], n: usize) -> usize
    requires { n ≤ 16 }
    ensures { result ≡ total_to y.now n }
{
    let mut k = 0;
    for pulses in &y[..n] {
        k += usize::from(*pulses);
    }
    k
}

// From k pulses up to k_max, over places 0 to last; answers their pair, from which the next shape goes on.
pub fn add_unit_pulse(
    abs_x: &[f32; 16],
    last: usize,
    k: usize,
    k_max: usize,
    y: &mut [u8; 16],
    r: SearchRecord,
) -> SearchRecord
    requires { (last < 16) × (length y.old ≡ 16) × (k ≤ k_max) × (total_to y.old 16 + (k_max - k) ≤ 255) }
    ensures pulses { y.new ≡ (more abs_x.now last (k_max - k) (start y.old r)).pulses }
    ensures pair { result ≡ (more abs_x.now last (k_max - k) (start y.old r)).pair }
{
    let low_x = pulse_guess::first_places(abs_x, last);
    let mut pair = r;
    for _ in k..k_max {
        let n_best = best_place(abs_x, &low_x, y, pair, last);
        pair = pair.pair_at(abs_x, y, n_best);
        y[n_best] += 1;
    }
    pair
}
