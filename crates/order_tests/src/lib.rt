// What reading a record answers, by example. A crate with tests is proved twice, so they stand apart.
#![tactic(auto)]

#[cfg(test)]
mod tests {
    use order::record::Record;
    use std::test::Fail;

    // The ground that refuses the bytes at a station of so many posts, or 0, as the rows of the table have it.
    fn ground(bytes: &[u8], posts: u8) -> u8 {
        Record::read(bytes, posts)
            .err()
            .map_or(0, |fault| fault.ground())
    }

    #[test]
    fn forms(rt: HostRuntime) {
        let table: [([u8; 8], u8, u8); 22] = [
            // a local event, a send and a receive
            ([0, 0, 0, 1, 0, 0, 0, 0], 4, 0),
            ([3, 1, 255, 255, 0, 0, 0, 0], 4, 0),
            ([3, 2, 0, 1, 0, 0, 255, 255], 4, 0),
            // kinds
            ([0, 3, 0, 1, 1, 0, 0, 1], 4, 4),
            ([9, 255, 0, 1, 9, 9, 0, 1], 4, 4),
            // posts
            ([4, 0, 0, 1, 0, 0, 0, 0], 4, 5),
            ([0, 0, 0, 1, 0, 0, 0, 0], 0, 5),
            ([0, 0, 0, 1, 0, 0, 0, 0], 1, 0),
            ([1, 0, 0, 1, 0, 1, 0, 0], 1, 5),
            ([63, 0, 0, 1, 0, 0, 0, 0], 64, 0),
            ([64, 0, 0, 1, 0, 0, 0, 0], 64, 5),
            ([64, 0, 0, 1, 0, 0, 0, 0], 65, 0),
            // the spare byte, and the partner of what is no receive
            ([0, 0, 0, 1, 0, 1, 0, 0], 4, 6),
            ([0, 2, 0, 1, 9, 1, 0, 1], 4, 6),
            ([0, 0, 0, 1, 1, 0, 0, 0], 4, 6),
            ([0, 1, 0, 1, 0, 0, 1, 0], 4, 6),
            ([0, 1, 0, 1, 0, 0, 0, 1], 4, 6),
            // a receive's partner
            ([0, 2, 0, 1, 3, 0, 0, 1], 4, 0),
            ([0, 2, 0, 1, 4, 0, 0, 1], 4, 7),
            ([1, 2, 0, 1, 1, 0, 0, 1], 4, 7),
            ([0, 2, 0, 1, 0, 0, 0, 1], 1, 7),
            ([63, 2, 0, 1, 64, 0, 0, 1], 64, 7),
        ];
        for (bytes, posts, expected) in table {
            assert_eq!(rt; ground(&bytes, posts), expected);
        }
    }

    #[test]
    fn lengths(rt: HostRuntime) -> Result<(), Fail> {
        let bytes = [3, 2, 1, 2, 0, 0, 255, 255, 0];
        assert_eq!(rt; ground(&bytes[0..7], 4), 3);
        assert_eq!(rt; ground(&bytes, 4), 3);
        let record = Record::read(&bytes[0..8], 4)?;
        assert_eq!(rt; record.event.number, 258);
        assert_eq!(rt; record.partner.number, 65_535);
        Ok(())
    }
}
