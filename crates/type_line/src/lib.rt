// A typed line as a tree file.
#![tactic(auto)]

ghost use Rattle.std.specs.Prelude.{◌≡◌, length};
ghost use Rattle.ast.specs.File.{link_of};
ghost use Rattle.typing.specs.Typed.{typed};
ghost use Rattle.type_line.specs.Filed.{filed, placeless};

use ast::LinkType;
use error::Refusal;
use lines::{BLANK, Item, Size};
use typing::Fault;

// The most records, and the most brackets that are open at once.
const RECORDS: usize = 128;

const BRACKETS: usize = 128;

// A link byte's refusal has no place of its own.
fn link_type(link: u8) -> Result<LinkType, Fault>
    ensures { result ≡ placeless (link_of link) }
{
    LinkType::try_from(link).map_err(|refusal| Fault { refusal, place: 0 })
}

// The answer to a whole line of that size, whose items are given, and its file.
fn place_file(tree: &mut [u8], link: u8, items: &[Item], size: Size) -> Result<usize, Fault>
    requires { (length items.now ≡ 128) × (length tree.old ≡ 3080) }
    ensures { (result ≡ (filed link size items.now tree.old).answer) × (tree.new ≡ (filed link size items.now tree.old).tree) }
{
    if size.records > RECORDS || size.deepest > BRACKETS {
        return Err(Fault {
            refusal: Refusal::TooLarge,
            place: 0,
        });
    }
    records::write_file(tree, link, &items[..size.records]);
    Ok(8 + 24 * size.records)
}

// A typed line as a tree file in 3,080 bytes, zero after its end and on a refusal. The items stand in an array: the code that C calls has no
// heap.
pub fn type_line(link: u8, line: &[u8], tree: &mut [u8; 3080]) -> Result<usize, Fault>
    ensures { (result ≡ (typed link line.now).answer) × (tree.new ≡ (typed link line.now).tree) }
{
    *tree = [0; 3080];
    link_type(link)?;
    let mut items = [BLANK; RECORDS];
    let size = lines::read_line(line, &mut items)?;
    place_file(tree, link, &items, size)
}
