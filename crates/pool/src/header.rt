// A stamp's header as cells.
ghost use Rattle.pool.specs.Layout.{Packs};

use keeper::admit::Header;

// The header cells of an unmarked stamp; the layout has mark, kind and post in the first. Numbers are cut by division,
// since the library cuts them into bytes and not into cells.
pub fn packed(post: u8, header: Header, link: u32) -> [u16; 8]
    ensures { Packs result post header link }
{
    let cover = header.cover.bits();
    [
        post as u16 * 8 + u16::from(u8::from(header.kind)) * 2,
        (cover % 0x1_0000) as u16,
        (cover / 0x1_0000 % 0x1_0000) as u16,
        (cover / 0x1_0000_0000 % 0x1_0000) as u16,
        (cover / 0x1_0000_0000_0000) as u16,
        header.full,
        (link % 0x1_0000) as u16,
        (link / 0x1_0000) as u16,
    ]
}
