// The key expansion.
ghost use Rattle.std.specs.Prelude.{◌≡◌, ◌+◌, ◌-◌, ◌*◌, ◌/◌, ◌<◌, ◌≤◌, [], ◌∷◌, length, take};
ghost use Rattle.eleos_base.specs.AesKey.{IsKeyLength, round_constant, word_change, next_word};
ghost use Rattle.eleos_base.specs.AesKey.{key_word, word_after, first_words, sub_word, xor_word};

use eleos_lanes::sub_bytes;

/// How many words the longest key expands to.
pub(crate) const MAX_WORDS: usize = 60;

/// The sum of two words.
fn xor_word(v: [u8; 4], w: [u8; 4]) -> [u8; 4]
    ensures { result ≡ xor_word v w }
{
    let [a, b, c, d] = v;
    let [e, f, g, h] = w;
    [a ^ e, b ^ f, c ^ g, d ^ h]
}

/// A word with each byte by the S-box.
fn sub_word(word: [u8; 4]) -> [u8; 4]
    ensures { result ≡ sub_word word }
{
    let [a, b, c, d] = word;
    let mut bytes = [a, b, c, d];
    sub_bytes(&mut bytes);
    bytes
}

/// The powers of x in the round constants, from x^0 on.
const POWERS: [u8; 10] = [0x01, 0x02, 0x04, 0x08, 0x10, 0x20, 0x40, 0x80, 0x1b, 0x36];

fn round_constant(j: usize) -> [u8; 4]
    requires { (0 < j) × (j ≤ 10) }
    ensures { result ≡ round_constant j }
{
    [POWERS[j - 1], 0, 0, 0]
}

/// What is added to word `i - key_words`, from the word before word `i`.
fn word_change(key_words: usize, i: usize, before: [u8; 4]) -> [u8; 4]
    requires some { 0 < key_words }
    requires from { key_words ≤ i }
    requires until { i < 11 * key_words }
    ensures { result ≡ word_change key_words i before }
{
    let place = i % key_words;
    if place == 0 {
        let [a, b, c, d] = before;
        xor_word(sub_word([b, c, d, a]), round_constant(i / key_words))
    } else if key_words > 6 && place == 4 {
        sub_word(before)
    } else {
        before
    }
}

/// Word `i` of the key itself.
fn key_word(key: &[u8], i: usize) -> [u8; 4]
    requires { 4 * i + 4 ≤ length key.now }
    ensures { result ≡ key_word key.now i }
{
    [key[4 * i], key[4 * i + 1], key[4 * i + 2], key[4 * i + 3]]
}

/// Word `i` of the expanded key, after the words before it.
fn word_after(key: &[u8], words: &[[u8; 4]; MAX_WORDS], i: usize) -> [u8; 4]
    requires some { 16 ≤ length key.now }
    requires whole { 4 * (length key.now / 4) ≤ length key.now }
    requires until { i < 11 * (length key.now / 4) }
    requires room { i < MAX_WORDS }
    ensures { result ≡ word_after key.now (take i words.now) i }
{
    let key_words = key.len() / 4;
    if i < key_words {
        return key_word(key, i);
    }
    let change = word_change(key_words, i, words[i - 1]);
    xor_word(words[i - key_words], change)
}

/// The words of the expanded key, and zeros after them.
pub(crate) fn expanded(key: &[u8]) -> [[u8; 4]; MAX_WORDS]
    requires { IsKeyLength (length key.now) }
    ensures { let count = 4 * (length key.now / 4 + 7) in
        take count result ≡ first_words key.now count }
{
    let mut words = [[0; 4]; MAX_WORDS];
    'words: for i in 0..4 * (key.len() / 4 + 7) {
        let word = word_after(key, &words, i);
        words[i] = word;
    }
    words
}
