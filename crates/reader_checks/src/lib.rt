#![tactic(auto)]

// Tests of the reading: refusals with their places, and messages as clients send them.
#[cfg(test)]
mod tests {
    use reader::read_rows;
    use wire::row::Row;

    fn refuses(message: &[u8], number: u8, place: usize) -> bool {
        let mut rows = [Row::BLANK; 8];
        read_rows(message, &mut rows).is_err_and(|refusal| refusal.told() == (number, place))
    }

    // How many rows a message has, or 0 where it is refused.
    fn rows_of(message: &[u8]) -> usize {
        let mut rows = [Row::BLANK; 16];
        read_rows(message, &mut rows).unwrap_or(0)
    }

    #[test]
    fn refuses_whole_messages(rt: HostRuntime) {
        assert!(rt; refuses(b"<methodCall>\x7f", 4, 12));
        assert!(rt; refuses(b"<?xml \x7f", 4, 6));
        assert!(rt; refuses(b"<?xml version=\"1.0\"><methodCall/>", 5, 0));
        assert!(rt; refuses(b"<?xml>?<methodCall/>", 5, 0));
        assert!(rt; refuses(b"<?xml?>", 6, 7));
        assert!(rt; refuses(b"\n<?xml?>", 7, 1));
        assert!(rt; refuses(b"<?xm?>", 7, 0));
    }

    #[test]
    fn refuses_ends_and_no_tags(rt: HostRuntime) {
        assert!(rt; refuses(b"", 6, 0));
        assert!(rt; refuses(b"hello", 6, 5));
        assert!(rt; refuses(b"<methodCall>", 6, 12));
        assert!(rt; refuses(b"<methodResponse><fault><value><int>x", 6, 36));
        assert!(rt; refuses(b"<methodcall>", 7, 0));
        assert!(rt; refuses(b"< methodCall>", 7, 0));
        assert!(rt; refuses(b"</methodCall/>", 7, 0));
        assert!(rt; refuses(b"<methodCall/ >", 7, 0));
        assert!(rt; refuses(b"<methodCall", 7, 0));
        assert!(rt; refuses(b"<methodCall><!-- hi -->", 7, 12));
        assert!(rt; refuses(b"<methodResponse><fault><value><nil/>", 7, 30));
        assert!(rt; refuses(b"<methodResponse><fault><value><int a=\"1\">7</int>", 7, 30));
        assert!(rt; refuses(b"<methodResponse><fault><value><![CDATA[x]]>", 7, 30));
        assert!(rt; refuses(b"hello<methodcall>", 7, 5));
        assert!(rt; refuses(b"<methodResponse><fault><value><int>x<", 7, 36));
    }

    #[test]
    fn refuses_runs(rt: HostRuntime) {
        assert!(rt; refuses(b"hello<methodCall>", 8, 0));
        assert!(rt; refuses(b"<methodCall>\n x<methodName>", 8, 14));
        assert!(rt; refuses(b"<methodResponse><fault><value>abc<int>", 8, 30));
        assert!(rt; refuses(b"<methodResponse><fault><value>a&b<int>", 8, 30));
        assert!(rt; refuses(b"<methodResponse><fault><value>abc<value>", 8, 30));
        assert!(rt;
            refuses(
                b"<methodResponse><fault><value><int>7</int> 8</value>",
                8,
                43,
            )
        );
        assert!(rt;
            refuses(
                b"<methodCall><methodName>a</methodName></methodCall> x",
                8,
                52,
            )
        );
        assert!(rt; refuses(b"<methodResponse><fault><value>a&b</value>", 9, 31));
        assert!(rt; refuses(b"<methodResponse><fault><value>a&b</int>", 9, 31));
        assert!(rt;
            refuses(
                b"<methodResponse><fault><value><string>&amp;&;&#0;</string>",
                9,
                43,
            )
        );
        assert!(rt;
            refuses(
                b"<methodResponse><fault><value><struct><member><name>&x</value>",
                9,
                52,
            )
        );
        assert!(rt;
            refuses(
                b"<methodResponse><fault><value><int> 2147483648</int>",
                10,
                35,
            )
        );
        assert!(rt; refuses(b"<methodResponse><fault><value><int>x<int>", 10, 35));
        assert!(rt; refuses(b"<methodResponse><fault><value><double>1.</double>", 10, 38));
        assert!(rt;
            refuses(
                b"<methodResponse><fault><value><dateTime.iso8601>19000229T00:00:00</dateTime.iso8601>",
                10,
                48,
            )
        );
        assert!(rt;
            refuses(
                b"<methodResponse><fault><value><base64>IR==</base64>",
                10,
                38,
            )
        );
        assert!(rt; refuses(b"<methodCall><methodName> a</methodName>", 10, 24));
        assert!(rt; refuses(b"<methodCall><methodName>a&b</methodName>", 10, 24));
        assert!(rt; refuses(b"<methodCall><methodName><params>", 10, 24));
    }

    #[test]
    fn refuses_tags(rt: HostRuntime) {
        assert!(rt; refuses(b"<value>", 11, 0));
        assert!(rt; refuses(b"</methodCall>", 11, 0));
        assert!(rt; refuses(b"<methodResponse><fault><value></int>", 11, 30));
        assert!(rt; refuses(b"<methodResponse><fault><value><int>7</i4>", 11, 36));
        assert!(rt; refuses(b"<methodResponse><fault><value><string>a<string>", 11, 39));
        assert!(rt; refuses(b"<methodResponse><fault><value><int>7</int><int>", 11, 42));
        assert!(rt;
            refuses(
                b"<methodCall><methodName>a</methodName></methodCall><methodCall>",
                11,
                51,
            )
        );
        assert!(rt; refuses(b"<methodCall><params>", 11, 12));
    }

    #[test]
    fn refuses_empty_elements(rt: HostRuntime) {
        assert!(rt; refuses(b"<methodCall/>", 11, 0));
        assert!(rt; refuses(b"<methodResponse><fault><value><array/>", 11, 30));
        assert!(rt; refuses(b"<methodResponse><params/>", 11, 16));
        assert!(rt; refuses(b"<methodResponse><fault><value><int/>", 10, 36));
        assert!(rt; refuses(b"<methodCall><methodName />", 10, 26));
        assert!(rt; refuses(b"<methodResponse><fault><value>abc<int/>", 8, 30));
        assert!(rt; refuses(b"<methodResponse><fault><value><string/>", 6, 39));
    }

    #[test]
    fn refuses_the_earlier_step(rt: HostRuntime) {
        assert!(rt; refuses(b"<methodCall>x<methodName>a b</methodName>", 8, 12));
        assert!(rt; refuses(b"<methodCall><methodName>a b</methodName>x", 10, 24));
        assert!(rt; refuses(b"<methodResponse><fault><value><int>7</i4>x<", 11, 36));
    }

    #[test]
    fn reads_what_clients_send(rt: HostRuntime) {
        assert_eq!(rt;
            rows_of(
                b"<?xml version='1.0' encoding='UTF-8'?>\r\n<methodCall>\r\n<methodName>score.top</methodName>\r\n<params>\r\n<param>\r\n<value><int>3</int></value>\r\n</param>\r\n</params>\r\n</methodCall>\r\n",
            ),
            2
        );
        assert_eq!(rt;
            rows_of(b"<methodCall><methodName>coins</methodName></methodCall>"),
            1
        );
        assert_eq!(rt;
            rows_of(b"<methodCall><methodName>coins</methodName><params/></methodCall>"),
            1
        );
        assert_eq!(rt;
            rows_of(
                b"<methodResponse><params><param><value>plain text</value></param></params></methodResponse>",
            ),
            2
        );
        assert_eq!(rt;
            rows_of(
                b"<methodResponse><params><param><value><array><data><value/><value><i4>+7</i4></value></data></array></value></param></params></methodResponse>",
            ),
            4
        );
        assert_eq!(rt;
            rows_of(
                b"<methodResponse><params><param><value><struct><member><name>a</name><value><boolean>1</boolean></value></member></struct></value></param></params></methodResponse>",
            ),
            4
        );
    }
}
