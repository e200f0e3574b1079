//! The torture messages of RFC 4475, by their names there, as far as they are told apart by what this profile reads. The comment of a row says what its
//! message is about; the other lines make it whole. An answer is how many bytes the body has, or the first fault: its reason and its line, which
//! counts from 0 for the start line, with folded lines as one.

use crate::answer::{Answer, Row};
use sip_message::Reason;

/// The messages, each with what it comes to.
pub(crate) static TORTURE: &[Row] = &[
    // Blank runs, folds, compact names and names in any case.
    Row {
        name: "wsinv",
        text: b"INVITE sip:vivekg@chair-dnrc.example.com;unknownparam SIP/2.0\r\n\
            TO :\r\n\
            \x20sip:vivekg@chair-dnrc.example.com ;   tag    = 1918181833n\r\n\
            from   : \"J Rosenberg \\\\\\\"\"       <sip:jdrosen@example.com>\r\n\
            \x20 ;\r\n\
            \x20 tag = 98asjd8\r\n\
            MaX-fOrWaRdS: 0068\r\n\
            Call-ID: wsinv.ndaksdj@192.0.2.1\r\n\
            Content-Length   : 150\r\n\
            cseq: 0009\r\n\
            \x20 INVITE\r\n\
            Via  : SIP  /   2.0\r\n\
            \x20/UDP\r\n\
            \x20   192.0.2.2;branch=390skdjuw\r\n\
            s :\r\n\
            NewFangledHeader:   newfangled value\r\n\
            \x20continued newfangled value\r\n\
            UnknownHeaderWithUnusualValue: ;;,,;;,;\r\n\
            Content-Type: application/sdp\r\n\
            Route:\r\n\
            \x20<sip:services.example.com;lr;unknownwith=value;unknown-no-value>\r\n\
            v:  SIP  / 2.0  / TCP     spindle.example.com   ;\r\n\
            \x20 branch  =   z9hG4bK9ikj8  ,\r\n\
            \x20SIP  /    2.0   / UDP  192.168.255.111   ; branch=\r\n\
            \x20z9hG4bK30239\r\n\
            m:\"Quoted string \\\"\\\"\" <sip:jdrosen@example.com> ; newparam =\r\n\
            \x20     newvalue ;\r\n\
            \x20 secondparam ; q = 0.33\r\n\
            \r\n\
            v=0\r\n\
            o=mhandley 29739 7272939 IN IP4 192.0.2.3\r\n\
            s=-\r\n\
            c=IN IP4 192.0.2.4\r\n\
            t=0 0\r\n\
            m=audio 49217 RTP/AVP 0 12\r\n\
            m=video 3227 RTP/AVP 31\r\n\
            a=rtpmap:31 LPC\r\n",
        answer: Answer::Read { body: 150 },
    },
    // Every byte that a token, a user, a quoted pair and a word may hold.
    Row {
        name: "intmeth",
        text: b"!interesting-Method0123456789_*+`.%indeed'~ sip:1_unusual.URI~(to-be!sure)&isn't+it$/crazy?,/;;*:&it+has=1,weird!*pas$wo~d_too.(doesn't-it)@example.com SIP/2.0\r\n\
            Via: SIP/2.0/TCP host1.example.com;branch=z9hG4bK-.!%66*_+`'~\r\n\
            To: \"BEL:\\\x07 NUL:\\\x00 DEL:\\\x7f\" <sip:1_unusual.URI~(to-be!sure)&isn't+it$/crazy?,/;;*@example.com>\r\n\
            From: token1~` token2'+_ token3*%!.- <sip:mundane@example.com>;fromParam''~+*_!.-%=\"\xd1\x80\xd0\xb0\xd0\xb1\";tag=_token~1'+`*%!-.\r\n\
            Call-ID: intmeth.word%ZK-!.*_+'@word`~)(><:\\/\"][?}{\r\n\
            CSeq: 139122385 !interesting-Method0123456789_*+`.%indeed'~\r\n\
            Max-Forwards: 255\r\n\
            extensionHeader-!.%*+_`'~:\xef\xbb\xbf\xe5\xa4\xa7\xe5\x81\x9c\xe9\x9b\xbb\r\n\
            Content-Length: 0\r\n\
            \r\n",
        answer: Answer::Read { body: 0 },
    },
    // Escapes in a user and in the text of a URI.
    Row {
        name: "esc01",
        text: b"INVITE sip:sips%3Auser%40example.com@example.net SIP/2.0\r\n\
            To: sip:%75se%72@example.com\r\n\
            From: <sip:I%20have%20spaces@example.net>;tag=938\r\n\
            Max-Forwards: 87\r\n\
            i: esc01.239409asdfakjkn23onasd0-3234\r\n\
            CSeq: 234234 INVITE\r\n\
            Via: SIP/2.0/UDP host5.example.net;branch=z9hG4bKkdjuw\r\n\
            C: application/sdp\r\n\
            Contact:\r\n\
            \x20 <sip:cal%6Cer@host5.example.net;%6C%72;n%61me=v%61lue%25%34%31>\r\n\
            Content-Length: 150\r\n\
            \r\n\
            v=0\r\n\
            o=mhandley 29739 7272939 IN IP4 192.0.2.3\r\n\
            s=-\r\n\
            c=IN IP4 192.0.2.4\r\n\
            t=0 0\r\n\
            m=audio 49217 RTP/AVP 0 12\r\n\
            m=video 3227 RTP/AVP 31\r\n\
            a=rtpmap:31 LPC\r\n",
        answer: Answer::Read { body: 150 },
    },
    // Escaped NULs.
    Row {
        name: "escnull",
        text: b"REGISTER sip:example.com SIP/2.0\r\n\
            To: sip:null-%00-null@example.com\r\n\
            From: sip:null-%00-null@example.com;tag=839923423\r\n\
            Max-Forwards: 70\r\n\
            Call-ID: escnull.39203ndfvkjdasfkq3w4otrq0adsfdfnavd\r\n\
            CSeq: 14398234 REGISTER\r\n\
            Via: SIP/2.0/UDP host5.example.com;branch=z9hG4bKkdjuw\r\n\
            Contact: <sip:%00@host5.example.com>\r\n\
            Contact: <sip:%00%00@host5.example.com>\r\n\
            L:0\r\n\
            \r\n",
        answer: Answer::Read { body: 0 },
    },
    // A percent sign that is no escape.
    Row {
        name: "esc02",
        text: b"RE%47IST%45R sip:registrar.example.com SIP/2.0\r\n\
            To: \"%Z%45\" <sip:resource@example.com>\r\n\
            From: \"%Z%45\" <sip:resource@example.com>;tag=f232jadfj23\r\n\
            Call-ID: esc02.asdfnqwo34rq23i34jrjasdcnl23nrlknsdf\r\n\
            Via: SIP/2.0/TCP host.example.com;branch=z9hG4bK209%fzsnel234\r\n\
            CSeq: 29344 RE%47IST%45R\r\n\
            Max-Forwards: 70\r\n\
            Contact: <sip:alias1@host1.example.com>\r\n\
            C%6Fntact: <sip:alias2@host2.example.com>\r\n\
            Contact: <sip:alias3@host3.example.com>\r\n\
            l: 0\r\n\
            \r\n",
        answer: Answer::Read { body: 0 },
    },
    // No blank between a display name and its URI.
    Row {
        name: "lwsdisp",
        text: b"OPTIONS sip:user@example.com SIP/2.0\r\n\
            To: sip:user@example.com\r\n\
            From: caller<sip:caller@example.com>;tag=323\r\n\
            Max-Forwards: 70\r\n\
            Call-ID: lwsdisp.1234abcd@funky.example.com\r\n\
            CSeq: 60 OPTIONS\r\n\
            Via: SIP/2.0/UDP funky.example.com;branch=z9hG4bKkdjuw\r\n\
            l: 0\r\n\
            \r\n",
        answer: Answer::Read { body: 0 },
    },
    // A second request after the first in one datagram is discarded.
    Row {
        name: "dblreq",
        text: b"REGISTER sip:example.com SIP/2.0\r\n\
            To: sip:j.user@example.com\r\n\
            From: sip:j.user@example.com;tag=43251j3j324\r\n\
            Max-Forwards: 8\r\n\
            I: dblreq.0ha0isndaksdj99sdfafnl3lk233412\r\n\
            Contact: sip:j.user@host.example.com\r\n\
            CSeq: 8 REGISTER\r\n\
            Via: SIP/2.0/UDP 192.0.2.125;branch=z9hG4bKkdjuw23492\r\n\
            Content-Length: 0\r\n\
            \r\n\
            \r\n\
            INVITE sip:joe@example.com SIP/2.0\r\n\
            t: sip:joe@example.com\r\n\
            From: sip:caller@example.net;tag=141334\r\n\
            Max-Forwards: 8\r\n\
            Call-ID: dblreq.0ha0isnda977644900765@192.0.2.15\r\n\
            CSeq: 8 INVITE\r\n\
            Via: SIP/2.0/UDP 192.0.2.15;branch=z9hG4bKkdjuw380234\r\n\
            Content-Type: application/sdp\r\n\
            Content-Length: 150\r\n\
            \r\n\
            v=0\r\n\
            o=mhandley 29739 7272939 IN IP4 192.0.2.3\r\n\
            s=-\r\n\
            c=IN IP4 192.0.2.4\r\n\
            t=0 0\r\n\
            m=audio 49217 RTP/AVP 0 12\r\n\
            m=video 3227 RTP/AVP 31\r\n\
            a=rtpmap:31 LPC\r\n",
        answer: Answer::Read { body: 0 },
    },
    // A semicolon in a user.
    Row {
        name: "semiuri",
        text: b"OPTIONS sip:user;par=u%40example.net@example.com SIP/2.0\r\n\
            To: sip:j_user@example.com\r\n\
            From: sip:caller@example.org;tag=33242\r\n\
            Max-Forwards: 3\r\n\
            Call-ID: semiuri.0ha0isndaksdj\r\n\
            CSeq: 8 OPTIONS\r\n\
            Accept: application/sdp, application/pkcs7-mime,\r\n\
            \x20       multipart/mixed, multipart/signed,\r\n\
            \x20       message/sip, message/sipfrag\r\n\
            Via: SIP/2.0/UDP 192.0.2.1;branch=z9hG4bKkdjuw\r\n\
            l: 0\r\n\
            \r\n",
        answer: Answer::Read { body: 0 },
    },
    // Transports that are not known.
    Row {
        name: "transports",
        text: b"OPTIONS sip:user@example.com SIP/2.0\r\n\
            To: sip:user@example.com\r\n\
            From: <sip:caller@example.com>;tag=323\r\n\
            Max-Forwards: 70\r\n\
            Call-ID:  transports.kijh4akdnaqjkwendsasfdj\r\n\
            Accept: application/sdp\r\n\
            CSeq: 60 OPTIONS\r\n\
            Via: SIP/2.0/UDP t1.example.com;branch=z9hG4bKkdjuw\r\n\
            Via: SIP/2.0/SCTP t2.example.com;branch=z9hG4bKklasjdhf\r\n\
            Via: SIP/2.0/TLS t3.example.com;branch=z9hG4bK2980unddj\r\n\
            Via: SIP/2.0/UNKNOWN t4.example.com;branch=z9hG4bKasd0f3en\r\n\
            Via: SIP/2.0/TCP t5.example.com;branch=z9hG4bK0a9idfnee\r\n\
            l: 0\r\n\
            \r\n",
        answer: Answer::Read { body: 0 },
    },
    // A reason phrase beyond ASCII.
    Row {
        name: "unreason",
        text: b"SIP/2.0 200 = 2**3 * 5**2 \xd0\xbd\xd0\xbe \xd1\x81\xd1\x82\xd0\xbe \xd0\xb4\xd0\xb5\xd0\xb2\xd1\x8f\xd0\xbd\xd0\xbe\xd1\x81\xd1\x82\xd0\xbe\r\n\
            Via: SIP/2.0/UDP 192.0.2.198;branch=z9hG4bK1324923\r\n\
            Call-ID: unreason.1234ksdfak3j2erwedfsASdf\r\n\
            CSeq: 35 INVITE\r\n\
            From: sip:user@example.com;tag=11141343\r\n\
            To: sip:user@example.edu;tag=2229\r\n\
            Content-Length: 150\r\n\
            Content-Type: application/sdp\r\n\
            Contact: <sip:user@host198.example.com>\r\n\
            \r\n\
            v=0\r\n\
            o=mhandley 29739 7272939 IN IP4 192.0.2.3\r\n\
            s=-\r\n\
            c=IN IP4 192.0.2.4\r\n\
            t=0 0\r\n\
            m=audio 49217 RTP/AVP 0 12\r\n\
            m=video 3227 RTP/AVP 31\r\n\
            a=rtpmap:31 LPC\r\n",
        answer: Answer::Read { body: 150 },
    },
    // An empty reason phrase.
    Row {
        name: "noreason",
        text: b"SIP/2.0 100 \r\n\
            Via: SIP/2.0/UDP 192.0.2.105;branch=z9hG4bK2398ndaoe\r\n\
            Call-ID: noreason.asndj203insdf99223ndf\r\n\
            CSeq: 35 INVITE\r\n\
            From: <sip:user@example.com>;tag=39ansfi3\r\n\
            To: <sip:user@example.edu>;tag=902jndnke3\r\n\
            Content-Length: 0\r\n\
            Contact: <sip:user@host105.example.com>\r\n\
            \r\n",
        answer: Answer::Read { body: 0 },
    },
    // Empty parameters and elements in Via.
    Row {
        name: "badinv01",
        text: b"INVITE sip:user@example.com SIP/2.0\r\n\
            To: sip:j.user@example.com\r\n\
            From: sip:caller@example.net;tag=134161461246\r\n\
            Max-Forwards: 7\r\n\
            Call-ID: badinv01.0ha0isndaksdjasdf3234nas\r\n\
            CSeq: 8 INVITE\r\n\
            Via: SIP/2.0/UDP 192.0.2.15;;,;,,\r\n\
            Contact: \"Joe\" <sip:joe@example.org>;;;;\r\n\
            Content-Length: 150\r\n\
            Content-Type: application/sdp\r\n\
            \r\n\
            v=0\r\n\
            o=mhandley 29739 7272939 IN IP4 192.0.2.3\r\n\
            s=-\r\n\
            c=IN IP4 192.0.2.4\r\n\
            t=0 0\r\n\
            m=audio 49217 RTP/AVP 0 12\r\n\
            m=video 3227 RTP/AVP 31\r\n\
            a=rtpmap:31 LPC\r\n",
        answer: Answer::Line(6, Reason::Value),
    },
    // A Content-Length beyond the datagram.
    Row {
        name: "clerr",
        text: b"INVITE sip:user@example.com SIP/2.0\r\n\
            Max-Forwards: 80\r\n\
            To: sip:j.user@example.com\r\n\
            From: sip:caller@example.net;tag=93942939o2\r\n\
            Contact: <sip:caller@hungry.example.net>\r\n\
            Call-ID: clerr.0ha0isndaksdjweiafasdk3\r\n\
            CSeq: 8 INVITE\r\n\
            Via: SIP/2.0/UDP host5.example.com;branch=z9hG4bK-39234-23523\r\n\
            Content-Type: application/sdp\r\n\
            Content-Length: 9999\r\n\
            \r\n\
            v=0\r\n\
            o=mhandley 29739 7272939 IN IP4 192.0.2.3\r\n\
            s=-\r\n\
            c=IN IP4 192.0.2.4\r\n\
            t=0 0\r\n\
            m=audio 49217 RTP/AVP 0 12\r\n\
            m=video 3227 RTP/AVP 31\r\n\
            a=rtpmap:31 LPC\r\n",
        answer: Answer::Body(Reason::ShortBody),
    },
    // A Content-Length below 0.
    Row {
        name: "ncl",
        text: b"INVITE sip:user@example.com SIP/2.0\r\n\
            Max-Forwards: 254\r\n\
            To: sip:j.user@example.com\r\n\
            From: sip:caller@example.net;tag=32394234\r\n\
            Call-ID: ncl.0ha0isndaksdj2193423r542w35\r\n\
            CSeq: 0 INVITE\r\n\
            Via: SIP/2.0/UDP 192.0.2.53;branch=z9hG4bKkdjuw\r\n\
            Contact: <sip:caller@example53.example.net>\r\n\
            Content-Type: application/sdp\r\n\
            Content-Length: -999\r\n\
            \r\n\
            v=0\r\n\
            o=mhandley 29739 7272939 IN IP4 192.0.2.3\r\n\
            s=-\r\n\
            c=IN IP4 192.0.2.4\r\n\
            t=0 0\r\n\
            m=audio 49217 RTP/AVP 0 12\r\n\
            m=video 3227 RTP/AVP 31\r\n\
            a=rtpmap:31 LPC\r\n",
        answer: Answer::Line(9, Reason::Value),
    },
    // A CSeq number beyond 2^31; the other numbers are not looked into.
    Row {
        name: "scalar02",
        text: b"REGISTER sip:example.com SIP/2.0\r\n\
            Via: SIP/2.0/TCP host129.example.com;branch=z9hG4bK342sdfoi3\r\n\
            To: <sip:user@example.com>\r\n\
            From: <sip:user@example.com>;tag=239232jh3\r\n\
            CSeq: 36893488147419103232 REGISTER\r\n\
            Call-ID: scalar02.23o0pd9vanlq3wnrlnewofjas9ui32\r\n\
            Max-Forwards: 300\r\n\
            Expires: 10000000000000000000000000000000000000000000000000000000000000000000000000000000000000000000000000000\r\n\
            Contact: <sip:user@host129.example.com>\r\n\
            \x20 ;expires=280297596632815\r\n\
            Content-Length: 0\r\n\
            \r\n",
        answer: Answer::Line(4, Reason::Value),
    },
    // A CSeq number beyond 2^31 in a response.
    Row {
        name: "scalarlg",
        text: b"SIP/2.0 503 Service Unavailable\r\n\
            Via: SIP/2.0/TCP host129.example.com;branch=z9hG4bKzzxdiwo34sw;received=192.0.2.129\r\n\
            To: <sip:user@example.com>\r\n\
            From: <sip:other@example.net>;tag=2easdjfejw\r\n\
            CSeq: 9292394834772304023312 OPTIONS\r\n\
            Call-ID: scalarlg.noase0of0234hn2qofoaf0232aewf2394r\r\n\
            Retry-After: 949302838503028349304023988\r\n\
            Warning: 1812 overture \"In Progress\"\r\n\
            Content-Length: 0\r\n\
            \r\n",
        answer: Answer::Line(4, Reason::Value),
    },
    // A quoted string that does not end.
    Row {
        name: "quotbal",
        text: b"INVITE sip:user@example.com SIP/2.0\r\n\
            To: \"Mr. J. User <sip:j.user@example.com>\r\n\
            From: sip:caller@example.net;tag=93334\r\n\
            Max-Forwards: 10\r\n\
            Call-ID: quotbal.aksdj\r\n\
            Contact: <sip:caller@host59.example.net>\r\n\
            CSeq: 8 INVITE\r\n\
            Via: SIP/2.0/UDP 192.0.2.59:5050;branch=z9hG4bKkdjuw39234\r\n\
            Content-Type: application/sdp\r\n\
            Content-Length: 150\r\n\
            \r\n\
            v=0\r\n\
            o=mhandley 29739 7272939 IN IP4 192.0.2.3\r\n\
            s=-\r\n\
            c=IN IP4 192.0.2.4\r\n\
            t=0 0\r\n\
            m=audio 49217 RTP/AVP 0 12\r\n\
            m=video 3227 RTP/AVP 31\r\n\
            a=rtpmap:31 LPC\r\n",
        answer: Answer::Line(1, Reason::Value),
    },
    // A Request-URI in angle brackets.
    Row {
        name: "ltgtruri",
        text: b"INVITE <sip:user@example.com> SIP/2.0\r\n\
            To: sip:user@example.com\r\n\
            From: sip:caller@example.net;tag=39291\r\n\
            Max-Forwards: 23\r\n\
            Call-ID: ltgtruri.1@192.0.2.5\r\n\
            CSeq: 1 INVITE\r\n\
            Via: SIP/2.0/UDP 192.0.2.5\r\n\
            Contact: <sip:caller@host5.example.net>\r\n\
            Content-Length: 0\r\n\
            \r\n",
        answer: Answer::Line(0, Reason::StartLine),
    },
    // A blank in a Request-URI.
    Row {
        name: "lwsruri",
        text: b"INVITE sip:user@example.com; lr SIP/2.0\r\n\
            To: sip:user@example.com\r\n\
            From: sip:caller@example.net;tag=39291\r\n\
            Max-Forwards: 23\r\n\
            Call-ID: lwsruri.1@192.0.2.5\r\n\
            CSeq: 1 INVITE\r\n\
            Via: SIP/2.0/UDP 192.0.2.5\r\n\
            Contact: <sip:caller@host5.example.net>\r\n\
            Content-Length: 0\r\n\
            \r\n",
        answer: Answer::Line(0, Reason::StartLine),
    },
    // Two blanks between the parts of a start line.
    Row {
        name: "lwsstart",
        text: b"INVITE  sip:user@example.com  SIP/2.0\r\n\
            To: sip:user@example.com\r\n\
            From: sip:caller@example.net;tag=39291\r\n\
            Max-Forwards: 23\r\n\
            Call-ID: lwsstart.1@192.0.2.5\r\n\
            CSeq: 1 INVITE\r\n\
            Via: SIP/2.0/UDP 192.0.2.5\r\n\
            Contact: <sip:caller@host5.example.net>\r\n\
            Content-Length: 0\r\n\
            \r\n",
        answer: Answer::Line(0, Reason::StartLine),
    },
    // Blanks at the end of a start line.
    Row {
        name: "trws",
        text: b"OPTIONS sip:remote-target@example.com SIP/2.0  \r\n\
            To: sip:user@example.com\r\n\
            From: sip:caller@example.net;tag=39291\r\n\
            Max-Forwards: 23\r\n\
            Call-ID: trws.1@192.0.2.5\r\n\
            CSeq: 1 OPTIONS\r\n\
            Via: SIP/2.0/UDP 192.0.2.5\r\n\
            Contact: <sip:caller@host5.example.net>\r\n\
            Content-Length: 0\r\n\
            \r\n",
        answer: Answer::Line(0, Reason::StartLine),
    },
    // Headers in a Request-URI: of the grammar, though section 19.1.1 gives them no sense there.
    Row {
        name: "escruri",
        text: b"INVITE sip:user@example.com?Route=%3Csip:example.com%3E SIP/2.0\r\n\
            To: sip:user@example.com\r\n\
            From: sip:caller@example.net;tag=39291\r\n\
            Max-Forwards: 23\r\n\
            Call-ID: escruri.1@192.0.2.5\r\n\
            CSeq: 1 INVITE\r\n\
            Via: SIP/2.0/UDP 192.0.2.5\r\n\
            Contact: <sip:caller@host5.example.net>\r\n\
            Content-Length: 0\r\n\
            \r\n",
        answer: Answer::Read { body: 0 },
    },
    // A version other than 2.0.
    Row {
        name: "badvers",
        text: b"OPTIONS sip:t.watson@example.org SIP/7.0\r\n\
            To: sip:user@example.com\r\n\
            From: sip:caller@example.net;tag=39291\r\n\
            Max-Forwards: 23\r\n\
            Call-ID: badvers.1@192.0.2.5\r\n\
            CSeq: 1 OPTIONS\r\n\
            Via: SIP/2.0/UDP 192.0.2.5\r\n\
            Contact: <sip:caller@host5.example.net>\r\n\
            Content-Length: 0\r\n\
            \r\n",
        answer: Answer::Line(0, Reason::StartLine),
    },
    // A scheme that nobody knows.
    Row {
        name: "unkscm",
        text: b"OPTIONS nobodyKnowsThisScheme:totallyopaquecontent SIP/2.0\r\n\
            To: sip:user@example.com\r\n\
            From: sip:caller@example.net;tag=39291\r\n\
            Max-Forwards: 23\r\n\
            Call-ID: unkscm.1@192.0.2.5\r\n\
            CSeq: 1 OPTIONS\r\n\
            Via: SIP/2.0/UDP 192.0.2.5\r\n\
            Contact: <sip:caller@host5.example.net>\r\n\
            Content-Length: 0\r\n\
            \r\n",
        answer: Answer::Read { body: 0 },
    },
    // A scheme of another protocol.
    Row {
        name: "novelsc",
        text: b"OPTIONS soap.beep://192.0.2.103:3002 SIP/2.0\r\n\
            To: sip:user@example.com\r\n\
            From: sip:caller@example.net;tag=39291\r\n\
            Max-Forwards: 23\r\n\
            Call-ID: novelsc.1@192.0.2.5\r\n\
            CSeq: 1 OPTIONS\r\n\
            Via: SIP/2.0/UDP 192.0.2.5\r\n\
            Contact: <sip:caller@host5.example.net>\r\n\
            Content-Length: 0\r\n\
            \r\n",
        answer: Answer::Read { body: 0 },
    },
    // A status code of ten digits.
    Row {
        name: "bigcode",
        text: b"SIP/2.0 4294967301 better not break the receiver\r\n\
            To: sip:user@example.com\r\n\
            From: sip:caller@example.net;tag=39291\r\n\
            Max-Forwards: 23\r\n\
            Call-ID: bigcode.1@192.0.2.5\r\n\
            CSeq: 1 INVITE\r\n\
            Via: SIP/2.0/UDP 192.0.2.5\r\n\
            Contact: <sip:caller@host5.example.net>\r\n\
            Content-Length: 0\r\n\
            \r\n",
        answer: Answer::Line(0, Reason::StartLine),
    },
    // A Date of another time zone, which is not looked into.
    Row {
        name: "baddate",
        text: b"INVITE sip:user@example.com SIP/2.0\r\n\
            To: sip:user@example.com\r\n\
            From: sip:caller@example.net;tag=2234923\r\n\
            Max-Forwards: 70\r\n\
            Call-ID: baddate.239423mnsadf3j23lj42--sedfnm234\r\n\
            CSeq: 1392934 INVITE\r\n\
            Via: SIP/2.0/UDP host.example.com;branch=z9hG4bKkdjuw\r\n\
            Date: Fri, 01 Jan 2010 16:00:00 EST\r\n\
            Contact: <sip:caller@host5.example.net>\r\n\
            Content-Length: 0\r\n\
            \r\n",
        answer: Answer::Read { body: 0 },
    },
    // Blanks between the brackets and the URI of a name-addr.
    Row {
        name: "badaspec",
        text: b"OPTIONS sip:user@example.org SIP/2.0\r\n\
            Via: SIP/2.0/UDP host4.example.com:5060;branch=z9hG4bKkdju43234\r\n\
            Max-Forwards: 70\r\n\
            From: \"Bell, Alexander\" <sip:a.g.bell@example.com>;tag=433423\r\n\
            To: \"Watson, Thomas\" < sip:t.watson@example.org >\r\n\
            Call-ID: badaspec.sdf0234n2nds0a099u23h3hnnw009cdkne3\r\n\
            Accept: application/sdp\r\n\
            CSeq: 3923239 OPTIONS\r\n\
            l: 0\r\n\
            \r\n",
        answer: Answer::Line(4, Reason::Value),
    },
    // A comma in a display name without quotes.
    Row {
        name: "baddn",
        text: b"OPTIONS sip:t.watson@example.org SIP/2.0\r\n\
            Via: SIP/2.0/UDP c.example.com:5060;branch=z9hG4bKkdjuw\r\n\
            Max-Forwards: 70\r\n\
            From: Bell, Alexander <sip:a.g.bell@example.com>;tag=43\r\n\
            To: Watson, Thomas <sip:t.watson@example.org>\r\n\
            Call-ID: baddn.31415@c.example.com\r\n\
            Accept: application/sdp\r\n\
            CSeq: 3923239 OPTIONS\r\n\
            l: 0\r\n\
            \r\n",
        answer: Answer::Line(3, Reason::Value),
    },
    // Another method in CSeq.
    Row {
        name: "mismatch01",
        text: b"OPTIONS sip:user@example.com SIP/2.0\r\n\
            To: sip:j.user@example.com\r\n\
            From: sip:caller@example.net;tag=34525\r\n\
            Max-Forwards: 6\r\n\
            Call-ID: mismatch01.dj0234sxdfl3\r\n\
            CSeq: 8 INVITE\r\n\
            Via: SIP/2.0/UDP host.example.com;branch=z9hG4bKkdjuw\r\n\
            l: 0\r\n\
            \r\n",
        answer: Answer::Line(5, Reason::MethodMismatch),
    },
    // A method that nobody knows, and another in CSeq.
    Row {
        name: "mismatch02",
        text: b"NEWMETHOD sip:user@example.com SIP/2.0\r\n\
            To: sip:j.user@example.com\r\n\
            From: sip:caller@example.net;tag=34525\r\n\
            Max-Forwards: 6\r\n\
            Call-ID: mismatch02.dj0234sxdfl3\r\n\
            CSeq: 8 INVITE\r\n\
            Contact: <sip:caller@host.example.net>\r\n\
            Via: SIP/2.0/UDP host.example.net;branch=z9hG4bKkdjuw\r\n\
            Content-Type: application/sdp\r\n\
            l: 150\r\n\
            \r\n\
            v=0\r\n\
            o=mhandley 29739 7272939 IN IP4 192.0.2.3\r\n\
            s=-\r\n\
            c=IN IP4 192.0.2.4\r\n\
            t=0 0\r\n\
            m=audio 49217 RTP/AVP 0 12\r\n\
            m=video 3227 RTP/AVP 31\r\n\
            a=rtpmap:31 LPC\r\n",
        answer: Answer::Line(5, Reason::MethodMismatch),
    },
    // A branch that is the bare cookie.
    Row {
        name: "badbranch",
        text: b"OPTIONS sip:user@example.com SIP/2.0\r\n\
            To: sip:user@example.com\r\n\
            From: sip:caller@example.org;tag=33242\r\n\
            Max-Forwards: 3\r\n\
            Via: SIP/2.0/UDP 192.0.2.1;branch=z9hG4bK\r\n\
            Accept: application/sdp\r\n\
            Call-ID: badbranch.sadonfo23i420jv0as0derf3j3n\r\n\
            CSeq: 8 OPTIONS\r\n\
            l: 0\r\n\
            \r\n",
        answer: Answer::Read { body: 0 },
    },
    // No From, To or Call-ID.
    Row {
        name: "insuf",
        text: b"INVITE sip:user@example.com SIP/2.0\r\n\
            CSeq: 193942 INVITE\r\n\
            Via: SIP/2.0/UDP 192.0.2.95;branch=z9hG4bKkdj.insuf\r\n\
            Content-Type: application/sdp\r\n\
            l: 150\r\n\
            \r\n\
            v=0\r\n\
            o=mhandley 29739 7272939 IN IP4 192.0.2.3\r\n\
            s=-\r\n\
            c=IN IP4 192.0.2.4\r\n\
            t=0 0\r\n\
            m=audio 49217 RTP/AVP 0 12\r\n\
            m=video 3227 RTP/AVP 31\r\n\
            a=rtpmap:31 LPC\r\n",
        answer: Answer::Head(Reason::Missing),
    },
    // URIs of other schemes in To, From and Contact.
    Row {
        name: "unksm2",
        text: b"REGISTER sip:example.com SIP/2.0\r\n\
            To: isbn:2983792873\r\n\
            From: <http://www.example.com>;tag=3234233\r\n\
            Call-ID: unksm2.daksdj@hyphenated-host.example.com\r\n\
            CSeq: 234902 REGISTER\r\n\
            Max-Forwards: 70\r\n\
            Via: SIP/2.0/UDP 192.0.2.21:5060;branch=z9hG4bKkdjuw\r\n\
            Contact: <name:John_Smith>\r\n\
            l: 0\r\n\
            \r\n",
        answer: Answer::Read { body: 0 },
    },
    // Fields twice that may stand once: From is the first in order.
    Row {
        name: "multi01",
        text: b"INVITE sip:user@company.com SIP/2.0\r\n\
            Contact: <sip:caller@host25.example.net>\r\n\
            Via: SIP/2.0/UDP 192.0.2.25;branch=z9hG4bKkdjuw\r\n\
            Max-Forwards: 70\r\n\
            CSeq: 5 INVITE\r\n\
            Call-ID: multi01.98asdh@192.0.2.1\r\n\
            CSeq: 59 INVITE\r\n\
            Call-ID: multi01.98asdh@192.0.2.2\r\n\
            From: sip:caller@example.com;tag=3413415\r\n\
            To: sip:user@example.com\r\n\
            To: sip:other@example.net\r\n\
            From: sip:caller@example.net;tag=2923420123\r\n\
            Content-Type: application/sdp\r\n\
            l: 150\r\n\
            Contact: <sip:caller@host36.example.net>\r\n\
            Max-Forwards: 5\r\n\
            \r\n\
            v=0\r\n\
            o=mhandley 29739 7272939 IN IP4 192.0.2.3\r\n\
            s=-\r\n\
            c=IN IP4 192.0.2.4\r\n\
            t=0 0\r\n\
            m=audio 49217 RTP/AVP 0 12\r\n\
            m=video 3227 RTP/AVP 31\r\n\
            a=rtpmap:31 LPC\r\n",
        answer: Answer::Line(11, Reason::Repeated),
    },
    // Two fields Content-Length.
    Row {
        name: "mcl01",
        text: b"OPTIONS sip:user@example.com SIP/2.0\r\n\
            Via: SIP/2.0/UDP host5.example.net;branch=z9hG4bK293423\r\n\
            To: sip:user@example.com\r\n\
            From: sip:other@example.net;tag=3923942\r\n\
            Call-ID: mcl01.fhn2323orihawfdoa3o4r52o3irsdf\r\n\
            CSeq: 15932 OPTIONS\r\n\
            Content-Length: 13\r\n\
            Max-Forwards: 60\r\n\
            Content-Length: 5\r\n\
            Content-Type: text/plain\r\n\
            \r\n\
            There's no way to know how many octets are supposed to be here.\r\n",
        answer: Answer::Line(8, Reason::Repeated),
    },
    // A response with a broadcast address in its Via.
    Row {
        name: "bcast",
        text: b"SIP/2.0 200 OK\r\n\
            Via: SIP/2.0/UDP 192.0.2.198;branch=z9hG4bK1324923\r\n\
            Via: SIP/2.0/UDP 255.255.255.255;branch=z9hG4bK1saber23\r\n\
            Call-ID: bcast.0384840201234ksdfak3j2erwedfsASdf\r\n\
            CSeq: 35 INVITE\r\n\
            From: sip:user@example.com;tag=11141343\r\n\
            To: sip:user@example.edu;tag=2229\r\n\
            Content-Length: 150\r\n\
            Content-Type: application/sdp\r\n\
            Contact: <sip:user@host28.example.com>\r\n\
            \r\n\
            v=0\r\n\
            o=mhandley 29739 7272939 IN IP4 192.0.2.3\r\n\
            s=-\r\n\
            c=IN IP4 192.0.2.4\r\n\
            t=0 0\r\n\
            m=audio 49217 RTP/AVP 0 12\r\n\
            m=video 3227 RTP/AVP 31\r\n\
            a=rtpmap:31 LPC\r\n",
        answer: Answer::Read { body: 150 },
    },
    // A parameter that nobody knows.
    Row {
        name: "cparam01",
        text: b"REGISTER sip:example.com SIP/2.0\r\n\
            Via: SIP/2.0/UDP saturn.example.com:5060;branch=z9hG4bKkdjuw\r\n\
            Max-Forwards: 70\r\n\
            From: sip:watson@example.com;tag=DkfVgjkrtMwaerKKpe\r\n\
            To: sip:watson@example.com\r\n\
            Call-ID: cparam01.70710@saturn.example.com\r\n\
            CSeq: 2 REGISTER\r\n\
            Contact: sip:+19725552222@gw1.example.net;unknownparam\r\n\
            l: 0\r\n\
            \r\n",
        answer: Answer::Read { body: 0 },
    },
    // An INVITE of RFC 2543: no branch, no tag, no Content-Length.
    Row {
        name: "inv2543",
        text: b"INVITE sip:UserB@example.com SIP/2.0\r\n\
            Via: SIP/2.0/UDP iftgw.example.com\r\n\
            From: <sip:+13035551111@ift.client.example.net;user=phone>\r\n\
            Record-Route: <sip:UserB@example.com;maddr=ss1.example.com>\r\n\
            To: sip:+16505552222@ss1.example.net;user=phone\r\n\
            Call-ID: inv2543.1717@ift.client.example.com\r\n\
            CSeq: 56 INVITE\r\n\
            Content-Type: application/sdp\r\n\
            \r\n\
            v=0\r\n\
            o=mhandley 29739 7272939 IN IP4 192.0.2.3\r\n\
            s=-\r\n\
            c=IN IP4 192.0.2.4\r\n\
            t=0 0\r\n\
            m=audio 49217 RTP/AVP 0 12\r\n\
            m=video 3227 RTP/AVP 31\r\n\
            a=rtpmap:31 LPC\r\n",
        answer: Answer::Read { body: 150 },
    },
];
