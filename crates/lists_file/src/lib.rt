// The file of a Unicode version's lists (document 02, W1): what it is (specs/File), and what its lines say.
//
// The first line is `unicode` and three decimal numbers; then comes one record a line: `start`, `continue` or `emoji`, low and high in hexadecimal. One tab
// stands between two fields, records come in the order of these names, and every line is ended by LF.
#![tactic(auto)]

ghost use Rattle.std.specs.Prelude.{◌≡◌};
ghost use Rattle.lists_file.specs.Lines.{which_of, record_of, decimal, version_of};

// A Unicode version, as 15.0.0.
#[derive(Clone, Copy)]
pub struct Version {
    pub major: u16,
    pub minor: u16,
    pub update: u16,
}

// A record: its list, numbered as beside refusal 3 (0 id start, 1 id continue, 2 emoji), and a pair.
// No enum: the number is what the C interface reports, and lines come in its order.
#[derive(Clone, Copy)]
pub struct Entry {
    pub which: usize,
    pub low: u32,
    pub high: u32,
}

// The list of a name; none where it is the name of none. By tests and not by a match on the names, which leaves a goal for every byte at which a text can differ.
fn which_of(name: &[u8]) -> Option<usize>
    ensures { result ≡ which_of name.now }
{
    if fields::is_word(name, b"start") {
        return Some(0);
    }
    if fields::is_word(name, b"continue") {
        return Some(1);
    }
    if fields::is_word(name, b"emoji") {
        return Some(2);
    }
    None
}

// What a line after the first says: up to a tab the name of a list, up to a tab low, and the rest is high. None where it is bad.
pub fn record_of(line: &[u8]) -> Option<Entry>
    ensures { result ≡ record_of line.now }
{
    let (name, pair) = fields::cut(line, b'\t')?;
    let (low, high) = fields::cut(pair, b'\t')?;
    Some(Entry {
        which: which_of(name)?,
        low: fields::number_of(low, 16, 0xFFFFFF)?,
        high: fields::number_of(high, 16, 0xFFFFFF)?,
    })
}

// A number of a version.
fn decimal(field: &[u8]) -> Option<u16>
    ensures { result ≡ decimal field.now }
{
    u16::try_from(fields::number_of(field, 10, 65535)?).ok()
}

// What the first line says: up to a tab the word `unicode`, and then three numbers. None where it is bad.
pub fn version_of(line: &[u8]) -> Option<Version>
    ensures { result ≡ version_of line.now }
{
    let (word, numbers) = fields::cut(line, b'\t')?;
    let (major, others) = fields::cut(numbers, b'\t')?;
    let (minor, update) = fields::cut(others, b'\t')?;
    if !fields::is_word(word, b"unicode") {
        return None;
    }
    Some(Version {
        major: decimal(major)?,
        minor: decimal(minor)?,
        update: decimal(update)?,
    })
}
