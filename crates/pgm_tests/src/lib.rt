// Examples of PGM files, good and bad, as tables.
#![tactic(auto)]

#[cfg(test)]
mod tests {
    use faults::fault::Fault;
    use pgm::read::read_pgm;
    use skyplate_job::report::report;
    use std::process::Abort;
    use std::test::Fail;

    // What reading a file into room for eight samples answers: 0, rows, columns and top, or a fault's number, layer and place, and 0.
    fn outcome(bytes: &[u8]) -> [usize; 4] {
        let mut samples = [7u16; 8];
        match read_pgm(bytes, &mut samples) {
            Ok(picture) => [
                0,
                picture.rows as usize,
                picture.columns as usize,
                picture.top as usize,
            ],
            Err(fault) => [
                fault.number() as usize,
                fault.layer().number() as usize,
                fault.place(),
                0,
            ],
        }
    }

    fn all_match(rt: &impl Abort, table: &[(&[u8], [usize; 4])]) {
        for (i, (bytes, answer)) in table.iter().enumerate() {
            assert_eq!(rt; (i, outcome(bytes)), (i, *answer));
        }
    }

    #[test]
    fn headers_that_fit(rt: HostRuntime) {
        let table: [(&[u8], [usize; 4]); 9] = [
            (b"P5 1 1 1 \x00", [0, 1, 1, 1]),
            (b"P5\t1\n1\x0b1\x0c\x01", [0, 1, 1, 1]),
            (b"P5\r1 1 1\r\x01", [0, 1, 1, 1]),
            (b"P5#\n1#a\n1# #\r\n#\n1\n\x01", [0, 1, 1, 1]),
            (
                b"P5 # width\n 2 # height\n 1 # top\n 255\n\x01\x02",
                [0, 1, 2, 255],
            ),
            (b"P5 00001 00002 00255 \x01\x02", [0, 2, 1, 255]),
            (b"P5 2 1 256 \x01\x00\x00\xff", [0, 1, 2, 256]),
            (b"P5 1 1 65535 \xff\xff", [0, 1, 1, 65535]),
            (b"P5 1 1 9 \x09 and more", [0, 1, 1, 9]),
        ];
        all_match(&rt, &table);
    }

    #[test]
    fn headers_that_do_not_fit(rt: HostRuntime) {
        let table: [(&[u8], [usize; 4]); 15] = [
            (b"", [17, 1, 0, 0]),
            (b"P", [17, 1, 1, 0]),
            (b"P6 1 1 1 ", [17, 1, 1, 0]),
            (b"P51 1 1 ", [17, 1, 2, 0]),
            (b"P5", [17, 1, 2, 0]),
            (b"P5 ", [17, 1, 3, 0]),
            (b"P5 1", [17, 1, 4, 0]),
            (b"P5 1x1 1 ", [17, 1, 4, 0]),
            (b"P5 -1 1 1 ", [17, 1, 3, 0]),
            (b"P5 123456 1 1 ", [17, 1, 8, 0]),
            (b"P5 000001 1 1 ", [17, 1, 8, 0]),
            (b"P5 1 1 1", [17, 1, 8, 0]),
            (b"P5 1 1 1#c\n\x00", [17, 1, 8, 0]),
            (b"P5 #no end\r 1 1 1 ", [17, 1, 18, 0]),
            (b"P5 1 \x08 1 1 ", [17, 1, 5, 0]),
        ];
        all_match(&rt, &table);
    }

    #[test]
    fn values_in_order(rt: HostRuntime) {
        let table: [(&[u8], [usize; 4]); 14] = [
            (b"P5 0 1 1 ", [1, 1, 0, 0]),
            (b"P5 1 0 0 ", [1, 1, 0, 0]),
            (b"P5 4097 1 1 ", [1, 1, 0, 0]),
            (b"P5 1 4097 1 ", [1, 1, 0, 0]),
            (b"P5 4096 4096 0 ", [3, 1, 0, 0]),
            (b"P5 1 1 65536 ", [3, 1, 0, 0]),
            (b"P5 1 1 1 ", [18, 1, 9, 0]),
            (b"P5 3 3 1 \x00\x00", [18, 1, 11, 0]),
            (b"P5 2 1 256 \x00\x00\x00", [18, 1, 14, 0]),
            (
                b"P5 3 3 1 \x02\x00\x00\x00\x00\x00\x00\x00\x00",
                [15, 1, 0, 0],
            ),
            (b"P5 3 1 7 \x08\x00\x00", [8, 1, 0, 0]),
            (b"P5 3 1 7 \x07\x08\x09", [8, 1, 1, 0]),
            (b"P5 3 1 7 \x07\x07\xff", [8, 1, 2, 0]),
            (b"P5 2 1 256 \x01\x00\x01\x01", [8, 1, 1, 0]),
        ];
        all_match(&rt, &table);
    }

    #[test]
    fn samples_stand_in_front(rt: HostRuntime) {
        let mut samples = [7u16; 4];
        assert!(rt; read_pgm(b"P5 1 3 515 \x00\x01\x02\x03\x01\x00", &mut samples).is_ok());
        assert_eq!(rt; samples, [1, 515, 256, 7]);
        assert!(rt; read_pgm(b"P5 2 1 9 \x01\x0a", &mut samples).is_err());
        assert_eq!(rt; samples, [1, 515, 256, 7]);
    }

    #[test]
    fn a_raster_is_the_front_of_a_buffer(rt: HostRuntime) -> Result<(), Fail> {
        let mut samples = [7u16; 4];
        let picture = read_pgm(b"P5 1 3 515 \x00\x01\x02\x03\x01\x00", &mut samples)?;
        assert_eq!(rt; picture.raster(&samples), [1, 515, 256].as_slice());
        assert_eq!(rt; picture.raster(&samples[0..2]), [1, 515].as_slice());
        Ok(())
    }

    #[test]
    fn faults_in_words(rt: HostRuntime) -> Result<(), Fail> {
        let text = Fault::PgmHeader(3).to_string(rt.alloc())?;
        assert_eq!(rt;
            text.as_str(),
            "fault 17, layer 1, place 3: the PGM header does not fit"
        );
        let text = Fault::Outside.to_string(rt.alloc())?;
        assert_eq!(rt;
            text.as_str(),
            "fault 16, layer 2, place 0: the place is outside"
        );
        Ok(())
    }

    #[test]
    fn reports(rt: HostRuntime) -> Result<(), Fail> {
        let table: [(&[u8], &[u8]); 7] = [
            (b"", b"04110100000000EA\n"),
            (b"P5 1 1 1", b"04110100000008E2\n"),
            (b"P5 4097 1 1 ", b"04010100000000FA\n"),
            (b"P5 1 1 0 ", b"04030100000000F8\n"),
            (b"P5 2 1 255 \x01", b"0412010000000CDD\n"),
            (b"P5 3 1 9 \x09\x09\x0a", b"04080100000002F1\n"),
            (
                b"P5 2 2 300 \x00\x07\x01\x2c\x00\x09\x00\x08",
                b"2 rows, 2 columns, top 300, samples from 7 to 300\n",
            ),
        ];
        for (i, (bytes, text)) in table.iter().enumerate() {
            let written = report(rt.alloc(), bytes)?;
            assert_eq!(rt; (i, written.as_slice()), (i, *text));
        }
        Ok(())
    }
}
