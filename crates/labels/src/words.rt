// Labels in a word, two bits each: one of them, the first n of a word or of an array over those of
// another word, and what a word may hold.

ghost use Rattle.std.specs.Prelude.{◌≡◌, ℕ, ◌-◌, ◌^◌, ◌≤◌, ◌<◌, slice_index};
ghost use Rattle.labels.specs.Packing.{label_in, labels_over, labels_inside, word_inside};

/// The label of station k in a word.
pub fn label_in(word: u32, k: usize) -> u8
    requires { k < 16 }
    ensures { result ≡ label_in word k }
{
    ((word >> (2 * k)) % 4) as u8
}

// The bits of the first n labels.
fn low(n: usize) -> u32
    requires { n ≤ 16 }
    ensures { result ≡ 4 ^ n - 1 }
{
    ((1u64 << (2 * n)) - 1) as u32
}

/// The first n labels of one word, the others of another.
pub fn over(n: usize, labels: u32, old: u32) -> u32
    requires { n ≤ 16 }
    ensures { result ≡ labels_over n (label_in labels) old }
{
    let below = low(n);
    old - (old & below) + (labels & below)
}

/// The first n labels of an array, the others of a word. The word is made from its highest label
/// down.
pub fn pack_over(n: usize, labels: [u8; 16], old: u32) -> u32
    requires few { n ≤ 16 }
    requires labels { (k : ℕ) → k < n → slice_index labels k < 4 }
    ensures { result ≡ labels_over n (slice_index labels) old }
{
    let mut word = (old as u64 >> (2 * n)) as u32;
    for i in (0..n).rev() {
        word = word * 4 + labels[i] as u32;
    }
    word
}

/// Are the labels of the first n stations 0 to 2? A label is no 3, so its two bits are not both 1.
pub fn labels_inside(word: u32, n: usize) -> bool
    requires { n ≤ 16 }
    ensures { result ≡ labels_inside n word }
{
    ((word & (word >> 1)) & 0x5555_5555) & low(n) == 0
}

/// Does the word hold n labels and nothing above them?
pub fn word_inside(word: u32, n: usize) -> bool
    requires { n ≤ 16 }
    ensures { result ≡ word_inside n word }
{
    let word = word as u64;
    let threes = (word & (word >> 1)) & 0x5555_5555;
    let above = word >> (2 * n);
    threes | above == 0
}
