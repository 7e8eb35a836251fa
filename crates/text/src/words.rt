// The words of a line, split by one space.
ghost use Rattle.std.specs.Prelude.{◌≡◌, ◌≤◌, length, take, drop};
ghost use Rattle.text.specs.Words.{words_of, word};

pub fn count_words(s: &[u8]) -> usize
    ensures { result ≡ length (words_of s.now) }
{
    let mut n: usize = 0;
    for b in s {
        if *b == b' ' {
            n += 1;
        }
    }
    n + 1
}

// Where word k starts; the line's end if there is none.
fn word_start(s: &[u8], k: usize) -> usize
    ensures upper_bound { result ≤ length s.now }
    ensures s_value { word (words_of (drop result s.now)) 0 ≡ word (words_of s.now) k }
{
    let mut left = k;
    for i in 0..s.len() {
        if left == 0 {
            return i;
        }
        if s[i] == b' ' {
            left -= 1;
        }
    }
    s.len()
}

// How long the first word is.
fn word_length(s: &[u8]) -> usize
    ensures upper_bound { result ≤ length s.now }
    ensures s_value { take result s.now ≡ word (words_of s.now) 0 }
{
    for i in 0..s.len() {
        if s[i] == b' ' {
            return i;
        }
    }
    s.len()
}

pub fn word_at(s: &[u8], k: usize) -> &[u8]
    ensures { result.now ≡ word (words_of s.now) k }
{
    let a = word_start(s, k);
    let t = &s[a..];
    let n = word_length(t);
    &t[..n]
}
